//! Words of a segment that stand for pointers, or for the elements of a composite list.
//!
//! A reader is copied by each step of a read. So the small parts stand first, and the segments' parts one by one.
ghost use Rattle.std.specs.Prelude.{◌+◌, ◌≤◌, ◌^◌};

/// The pointers of a struct or of a list: so many words of a segment, from the word `first` on, whose trees have one
/// level less than `depth`.
#[derive(Clone, Copy)]
pub struct Pointers<'a> {
    pub is_stream: bool,
    pub depth: u8,
    pub count: u32,
    pub bytes: &'a [u8],
    pub segment: &'a [u8],
    pub first: usize,
    ghost first_fits: { first ≤ 2 ^ 60 + 2 ^ 50 },
}

/// The elements of a composite list: so many structs of one size in a segment, from the word `first` on, whose
/// pointers' trees have one level less than `depth`.
#[derive(Clone, Copy)]
pub struct Elements<'a> {
    pub is_stream: bool,
    pub depth: u8,
    pub count: u32,
    pub bytes: &'a [u8],
    pub segment: &'a [u8],
    pub first: usize,
    ghost first_fits: { first ≤ 2 ^ 60 },
}
