//! Words that are the lines of a file, and words that can't be read.
ghost use Rattle.std.specs.Prelude.{[], ◌≡◌, string_bytes, get_or, IfErr, IfOk, map};
ghost use Rattle.capnp_device.specs.declared.error.ErrorKind.TheVariants.{OutOfMemory};
ghost use Rattle.riftcalico_core.specs.Reads.{line_at, unreadable_line, value_line_at};
ghost use Rattle.riftcalico_core.specs.Plans.{call_lines, is_remark, no_text_line};

use crate::calls::Unreadable;
use capnp_patch::lines::put_word;
use capnp_wire::error::Result;
use std::alloc::Global;

/// The line of a word that can't be read: its number among the words of its kind, the word, and the place of the first
/// byte that can't stand. Refused with `OutOfMemory` alone.
pub(crate) fn put_unreadable(alloc: Global, number: u128, word: &str, place: u128) -> Result<String>
    ensures line { IfOk result (λ line. string_bytes line ≡ unreadable_line number word.now place) }
    ensures memory { IfErr result (λ e. e.kind ≡ OutOfMemory) }
{
    let mut line = format!(in alloc; "{number}: ")?;
    put_word(&mut line, word)?;
    write!(line, ": can't be read at {place}\n")?;
    Ok(line)
}

/// The word at an index, empty where there is none.
pub(crate) fn word_at<'a>(words: &[&'a str], index: usize) -> &'a str
    ensures { result.now ≡ get_or (map (λ w. w.now) words.now) index [] }
{
    match words.get(index) {
        Some(word) => *word,
        None => "",
    }
}

/// The line of one of these words. Refused with `OutOfMemory` alone.
pub(crate) fn put_word_line(alloc: Global, words: &[&str], at: Unreadable) -> Result<String>
    ensures line { IfOk result (λ line. string_bytes line
        ≡ line_at (map (λ w. w.now) words.now) (at.index, at.place)) }
    ensures memory { IfErr result (λ e. e.kind ≡ OutOfMemory) }
{
    let number = at.index as u128 + 1;
    put_unreadable(alloc, number, word_at(words, at.index), at.place)
}

/// The line of one of these words whose value can't be read, with a note. Refused with `OutOfMemory` alone.
pub(crate) fn put_value_line(
    alloc: Global,
    words: &[&str],
    at: Unreadable,
    note: &str,
) -> Result<String>
    ensures line { IfOk result (λ line. string_bytes line
        ≡ value_line_at (map (λ w. w.now) words.now) (at.index, at.place) note.now) }
    ensures memory { IfErr result (λ e. e.kind ≡ OutOfMemory) }
{
    let number = at.index as u128 + 1;
    let place = at.place;
    let mut line = format!(in alloc; "{number}: ")?;
    put_word(&mut line, word_at(words, at.index))?;
    write!(line, ": can't be read at {place}")?;
    put_word(&mut line, note)?;
    line.push_str("\n")?;
    Ok(line)
}

/// Whether a line has no call: an empty one, or one that begins with `#`.
fn is_remark_line(line: &str) -> bool
    ensures { result ≡ is_remark line.now }
{
    match line.as_bytes() {
        [first, ..] => *first == b'#',
        [] => true,
    }
}

/// The lines of a text that have calls. Refused with `OutOfMemory` alone.
pub(crate) fn split_lines(alloc: Global, text: &str) -> Result<Vec<&str>>
    ensures lines { IfOk result (λ words. map (λ w. w.now) words.items ≡ call_lines text.now) }
    ensures memory { IfErr result (λ e. e.kind ≡ OutOfMemory) }
{
    let mut words = Vec::new(alloc);
    for line in text.lines() {
        if !is_remark_line(line) {
            words.push(line)?;
        }
    }
    Ok(words)
}

/// The line of a file whose bytes are no text: its path, and the place of the first byte that no character has. Refused
/// with `OutOfMemory` alone.
pub(crate) fn put_no_text(alloc: Global, path: &str, place: usize) -> Result<String>
    ensures line { IfOk result (λ line. string_bytes line ≡ no_text_line path.now place) }
    ensures memory { IfErr result (λ e. e.kind ≡ OutOfMemory) }
{
    let mut line = String::new(alloc);
    put_word(&mut line, path)?;
    write!(line, ": can't be read at {place}\n")?;
    Ok(line)
}
