//! The line that a refusal is told by. It takes no memory, so that a refusal for want of memory is told too.
ghost use Rattle.std.specs.Prelude.{◌≡◌, ◌≤◌, ◌+◌, ◌++◌, decimal, length, take};
ghost use Rattle.capnp_show_engine.specs.Command.{refusal_line};

use capnp_wire::error::ErrorKind;

/// As long as the longest line: a number has at most ten digits.
pub(crate) const LONGEST: usize = 20;

/// Where the digits begin.
const NUMBER_AT: usize = 9;

/// Writes the digits of a number into a line, from a place on, and answers the place after them. The line has to have
/// room for them.
fn put_number(line: &mut [u8], place: usize, number: u32) -> usize
    requires { place + length (decimal number) ≤ length line.old }
    ensures end { result ≡ place + length (decimal number) }
    ensures put { take result line.new ≡ take place line.old ++ decimal number }
{
    if number < 10 {
        line[place] = b'0' + number as u8;
        return place + 1;
    }
    let last = put_number(line, place, number / 10);
    line[last] = b'0' + (number % 10) as u8;
    last + 1
}

/// Writes a refusal's line from the beginning of a line on, and answers its length.
pub(crate) fn put_refusal(line: &mut [u8; LONGEST], kind: ErrorKind) -> usize
    ensures end { result ≤ LONGEST }
    ensures put { take result line.new ≡ refusal_line kind }
{
    *line = *b"refused: ..........\n";
    let end = put_number(line, NUMBER_AT, kind.number());
    line[end] = b'\n';
    end + 1
}
