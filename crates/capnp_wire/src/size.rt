//! The sizes of structs, of list elements and of messages.
ghost use Rattle.std.specs.Prelude.{IsTrue, ◌*◌, ◌+◌, ◌<◌, ◌^◌, ◌≡◌, ◌≤◌, ◌↔◌};
ghost use Rattle.capnp_wire.specs.Locate.{words_past_format};

/// The sections of a struct: its data in words of 8 bytes, and its pointers.
#[derive(Clone, Copy, Debug, PartialEq, Eq)]
pub struct StructSize {
    pub data_words: u16,
    pub pointers: u16,
}

impl StructSize {
    /// The words of a struct of this size.
    #[inline(always)]
    pub(crate) fn total(self) -> u32
        ensures words { result ≡ self.data_words + self.pointers }
        ensures bound { result < 2 ^ 17 }
    {
        self.data_words as u32 + self.pointers as u32
    }

    /// Whether so many structs of this size are 2^29 words or more, which no list can have.
    #[inline(always)]
    pub(crate) fn is_past_format(self, count: u32) -> bool
        ensures { IsTrue result ↔ words_past_format ≤ count * (self.data_words + self.pointers) }
    {
        count as u64 * self.total() as u64 >= 1 << 29
    }
}

/// The size of a list's elements, in the order of the encoding's numbers 0 to 7 ("Lists").
#[derive(Clone, Copy, Debug, PartialEq, Eq)]
pub enum ElementSize {
    Void,
    Bit,
    Byte,
    TwoBytes,
    FourBytes,
    EightBytes,
    Pointer,
    /// A composite list: its elements are structs, which lie in the list itself.
    InlineComposite,
}

/// How much a message or a part of it holds: words of 8 bytes, and capabilities, of which there are none here.
#[derive(Clone, Copy, Debug, PartialEq, Eq)]
pub struct MessageSize {
    pub word_count: u64,
    pub cap_count: u32,
}
