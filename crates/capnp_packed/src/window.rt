//! Bytes that wait between a source and the one who reads it, in an array of a fixed size.
ghost use Rattle.std.specs.Prelude.{◌≤◌};

mod steps;

/// Bytes that wait, in the order in which they came. There is room for twice as many as a piece stands for at most, and
/// for more than a piece has.
#[derive(Drop)]
pub(crate) struct Window {
    bytes: [u8; 4096],
    start: usize,
    end: usize,
    ghost inside: { start ≤ end },
    ghost room: { end ≤ 4096 },
}
