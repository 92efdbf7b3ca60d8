//! Why a text is no value.
ghost use Rattle.std.specs.Prelude.{◌≡◌, ◌-◌, length};
ghost use Rattle.capnp_value_texts.specs.declared.error.Error.TheVariants.{Refused};
ghost use Rattle.capnp_value_texts.specs.declared.error.RefusalKind.TheVariants.{CannotStand};

use capnp_device::error::ErrorKind;

/// What a text is refused for.
#[derive(Clone, Copy, Debug, PartialEq, Eq)]
pub enum RefusalKind {
    /// A byte can't stand there, or the text ends too soon.
    CannotStand,
    /// A bracket is opened within 64 others.
    TooDeep,
    /// The struct has no such field.
    NameUnknown,
    /// The field, or a member of the same union, is given before.
    GivenTwice,
    /// Brackets hold 2^29 parts or more.
    SizePastFormat,
}

/// A refusal, and the place of what is refused: how many bytes stand before its first byte.
#[derive(Clone, Copy, Debug, PartialEq, Eq)]
pub struct Refusal {
    pub kind: RefusalKind,
    pub place: usize,
}

/// Why no value was read.
#[derive(Clone, Copy, Debug, PartialEq, Eq)]
pub enum Error {
    /// Memory was refused.
    OutOfMemory,
    /// The text stands for no value.
    Refused(Refusal),
    /// A call by which the value is made was refused, the first of them so, as one past the message's limit.
    NotMade(ErrorKind),
}

/// A refusal of what stands at a place.
pub(crate) fn refused(kind: RefusalKind, place: usize) -> Error
    ensures { result ≡ Refused (record { kind = kind; place = place }) }
{
    Error::Refused(Refusal { kind, place })
}

/// The place at which these last bytes of a text begin, which has so many.
pub(crate) fn place_of(whole: usize, bytes: &[u8]) -> usize
    ensures { result ≡ whole - length bytes.now }
{
    whole.saturating_sub(bytes.len())
}

/// A refusal of the first of these last bytes of a text.
pub(crate) fn cannot_stand(whole: usize, bytes: &[u8]) -> Error
    ensures { result ≡ Refused (record { kind = CannotStand; place = whole - length bytes.now }) }
{
    refused(RefusalKind::CannotStand, place_of(whole, bytes))
}
