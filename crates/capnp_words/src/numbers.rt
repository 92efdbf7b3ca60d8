//! Decimal numbers.
ghost use Rattle.std.specs.Prelude.{◌≡◌, ◌+◌, ◌-◌, ◌<◌, ◌≤◌, ◌^◌, ◌≤ℤ◌, length, pos, negsuc, IfOk};
ghost use Rattle.capnp_words.specs.Numbers.{decimal_at, more_digits, negative_at, signed_at, with_digit};

/// The number with one more digit. None where the byte is no digit, or takes the number past the limit.
fn append_digit(number: u64, byte: u8, limit: u64) -> Option<u64>
    ensures { result ≡ with_digit limit number byte }
{
    if !byte.is_ascii_digit() {
        return None;
    }
    let digit = u64::from(byte - b'0');
    let next = number.checked_mul(10)?.checked_add(digit)?;
    if next <= limit { Some(next) } else { None }
}

/// The number in decimal digits, which has no zero in front and is at most `limit`. `place` is where the first byte
/// stands; else the place of the first that can't stand.
pub(crate) fn read_decimal(bytes: &[u8], place: usize, limit: u64) -> Result<u64, usize>
    requires { place + length bytes.now < 2 ^ 64 }
    ensures read { result ≡ decimal_at limit place bytes.now }
    ensures inside { IfOk result (λ n. n ≤ limit) }
{
    let Some(first) = bytes.first() else {
        return Err(place);
    };
    if *first == b'0' {
        return if bytes.len() == 1 {
            Ok(0)
        } else {
            Err(place + 1)
        };
    }
    read_digits(bytes, place, limit)
}

/// The number in decimal digits.
fn read_digits(bytes: &[u8], place: usize, limit: u64) -> Result<u64, usize>
    requires { place + length bytes.now < 2 ^ 64 }
    ensures read { result ≡ more_digits limit 0 place bytes.now }
    ensures inside { IfOk result (λ n. n ≤ limit) }
{
    let mut number = 0;
    for index in 0..bytes.len() {
        let Some(next) = append_digit(number, bytes[index], limit) else {
            return Err(place + index);
        };
        number = next;
    }
    Ok(number)
}

/// The number behind a minus, which is not zero, and at most `limit`.
fn read_negative(bytes: &[u8], place: usize, limit: u64) -> Result<i64, usize>
    requires room { place + length bytes.now < 2 ^ 64 }
    requires limit { limit ≤ 2 ^ 63 }
    ensures read { result ≡ negative_at limit place bytes.now }
    ensures inside { IfOk result (λ z. (negsuc (limit - 1) ≤ℤ z) × (z ≤ℤ pos 0)) }
{
    if bytes.first() == Some(&b'0') {
        return Err(place);
    }
    let number = read_decimal(bytes, place, limit)?;
    if number == 0 {
        return Ok(0);
    }
    Ok(-1 - (number - 1) as i64)
}

/// The number in decimal digits, behind a minus or not, which has no zero in front and is not `-0`. It is at most
/// `limit`, and at least one less than minus that. `place` is where the first byte stands; else the place of the first
/// that can't stand.
pub(crate) fn read_signed(bytes: &[u8], place: usize, limit: u64) -> Result<i64, usize>
    requires room { place + length bytes.now < 2 ^ 64 }
    requires limit { limit < 2 ^ 63 }
    ensures read { result ≡ signed_at limit place bytes.now }
    ensures inside { IfOk result (λ z. (negsuc limit ≤ℤ z) × (z ≤ℤ pos limit)) }
{
    if bytes.first() == Some(&b'-') {
        return read_negative(&bytes[1..], place + 1, limit + 1);
    }
    let number = read_decimal(bytes, place, limit)?;
    Ok(number as i64)
}
