//! Why a value has no JSON.
ghost use Rattle.std.specs.Prelude.{◌≡◌};
ghost use Rattle.capnp_json.specs.Errors.{json_error_name, json_error_number};

use capnp_device::error::ErrorKind;

/// Why no JSON was written.
#[derive(Clone, Copy, Debug, PartialEq, Eq)]
pub enum JsonError {
    /// A value that can't be read, by the refusal of its read; or one with no level left for it, as `TooDeep`.
    Read(ErrorKind),
    /// An untyped pointer that is not null.
    UntypedHasNoJson,
    /// A text, or the name of a field or enumerant, is not UTF-8.
    TextNotUtf8,
    /// No memory.
    OutOfMemory,
    /// The JSON is longer than the limit.
    TooLarge,
}

impl JsonError {
    /// The number by which it is told.
    pub fn number(&self) -> u32
        ensures { result ≡ json_error_number self.now }
    {
        match self {
            JsonError::Read(kind) => kind.number(),
            JsonError::UntypedHasNoJson => 67,
            JsonError::TextNotUtf8 => 68,
            JsonError::OutOfMemory => ErrorKind::OutOfMemory.number(),
            JsonError::TooLarge => ErrorKind::TooLarge.number(),
        }
    }

    /// Its name.
    pub fn name(&self) -> &'static str
        ensures { result.now ≡ json_error_name self.now }
    {
        match self {
            JsonError::Read(kind) => kind.name(),
            JsonError::UntypedHasNoJson => "UntypedHasNoJson",
            JsonError::TextNotUtf8 => "TextNotUtf8",
            JsonError::OutOfMemory => "OutOfMemory",
            JsonError::TooLarge => "TooLarge",
        }
    }
}
