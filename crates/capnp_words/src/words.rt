//! Words that are one of a few.
ghost use Rattle.std.specs.Prelude.{◌≡◌, ◌≤◌, length, max};
ghost use Rattle.capnp_words.specs.Words.{is_front, is_word, shared_length};

/// How many bytes from the first on are the same.
fn count_shared(word: &[u8], bytes: &[u8]) -> usize
    ensures count { result ≡ shared_length word.now bytes.now }
    ensures inside { result ≤ length bytes.now }
{
    let mut count = 0;
    while count < word.len() && count < bytes.len() && word[count] == bytes[count] {
        count += 1;
    }
    count
}

/// Whether the bytes begin with a word. `longest` is the most bytes that they share with this word or one before.
pub(crate) fn is_front(word: &[u8], bytes: &[u8], longest: &mut usize) -> bool
    ensures is { result ≡ is_front word.now bytes.now }
    ensures longest { longest.new ≡ max longest.old (shared_length word.now bytes.now) }
{
    let count = count_shared(word, bytes);
    *longest = (*longest).max(count);
    count == word.len()
}

/// Whether the bytes are a word. `longest` is the most bytes that they share with this word or one before.
pub(crate) fn is_word(word: &[u8], bytes: &[u8], longest: &mut usize) -> bool
    ensures is { result ≡ is_word word.now bytes.now }
    ensures longest { longest.new ≡ max longest.old (shared_length word.now bytes.now) }
{
    is_front(word, bytes, longest) && bytes.len() == word.len()
}
