//! Why a JSON text stands for no message.
ghost use Rattle.std.specs.Prelude.{◌≡◌};
ghost use Rattle.capnp_from_json.specs.Errors.{error_number, error_place, kind_name, kind_number};

/// What a text is refused for.
#[derive(Clone, Copy, Debug, PartialEq, Eq)]
pub enum RefusalKind {
    /// A struct or list stands more than 64 levels deep.
    TooDeep,
    /// A list, text or data is past the format.
    SizePastFormat,
    /// The bytes are no JSON text.
    NotJson,
    /// A value is of a kind that the type does not take.
    WrongJsonKind,
    /// A number is not whole, or past the type's range.
    NumberOutOfRange,
    /// A field, or a second member of one union, is given twice.
    GivenTwice,
    /// The struct has no such field, or the enum no such enumerant.
    NameUnknown,
}

impl RefusalKind {
    /// The number by which programs tell the refusal.
    pub fn number(self) -> u32
        ensures { result ≡ kind_number self }
    {
        match self {
            RefusalKind::TooDeep => 8,
            RefusalKind::SizePastFormat => 10,
            RefusalKind::NotJson => 70,
            RefusalKind::WrongJsonKind => 71,
            RefusalKind::NumberOutOfRange => 72,
            RefusalKind::GivenTwice => 73,
            RefusalKind::NameUnknown => 74,
        }
    }

    /// The name of the refusal, as it is written here.
    pub fn name(self) -> &'static str
        ensures { result.now ≡ kind_name self }
    {
        match self {
            RefusalKind::TooDeep => "TooDeep",
            RefusalKind::SizePastFormat => "SizePastFormat",
            RefusalKind::NotJson => "NotJson",
            RefusalKind::WrongJsonKind => "WrongJsonKind",
            RefusalKind::NumberOutOfRange => "NumberOutOfRange",
            RefusalKind::GivenTwice => "GivenTwice",
            RefusalKind::NameUnknown => "NameUnknown",
        }
    }
}

/// A refusal, and the place of what is refused: how many bytes stand before its first byte.
#[derive(Clone, Copy, Debug, PartialEq, Eq)]
pub struct Refusal {
    pub kind: RefusalKind,
    pub place: usize,
}

/// Why no message was made.
#[derive(Clone, Copy, Debug, PartialEq, Eq)]
pub enum Error {
    /// Memory was refused.
    OutOfMemory,
    /// The message would have 2^29 words or more.
    TooLarge,
    /// The text stands for no message.
    Refused(Refusal),
}

impl Error {
    /// The number by which programs tell the error.
    pub fn number(self) -> u32
        ensures { result ≡ error_number self }
    {
        match self {
            Error::OutOfMemory => 1,
            Error::TooLarge => 11,
            Error::Refused(refusal) => refusal.kind.number(),
        }
    }

    /// The place of what is refused, where the error has one.
    pub fn place(self) -> Option<usize>
        ensures { result ≡ error_place self }
    {
        match self {
            Error::OutOfMemory => None,
            Error::TooLarge => None,
            Error::Refused(refusal) => Some(refusal.place),
        }
    }
}
