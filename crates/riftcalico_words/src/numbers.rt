//! Numbers of bytes among words.
ghost use Rattle.std.specs.Prelude.{◌≡◌};
ghost use Rattle.riftcalico_words.specs.Numbers.{digit_behind, number_asked, with_digit};

/// The number with one more digit. None where the byte is no digit, or takes the number past 64 bits.
fn append_digit(number: u64, byte: u8) -> Option<u64>
    ensures { result ≡ with_digit number byte }
{
    if !byte.is_ascii_digit() {
        return None;
    }
    let digit = u64::from(byte - b'0');
    number.checked_mul(10)?.checked_add(digit)
}

/// The number with one more digit, where there is a number.
fn append_behind(number: Option<u64>, byte: u8) -> Option<u64>
    ensures { result ≡ digit_behind number byte }
{
    append_digit(number?, byte)
}

/// The number that a word of decimal digits is; none where it is none, or past 64 bits.
pub(crate) fn read_number(word: &[u8]) -> Option<u64>
    ensures { result ≡ number_asked word.now }
{
    if word.is_empty() {
        return None;
    }
    let mut number = Some(0);
    for byte in word {
        number = append_behind(number, *byte);
    }
    number
}
