//! Kinds of values, and the parts of a text.
ghost use Rattle.std.specs.Prelude.{◌≡◌};
ghost use Rattle.capnp_json_text.specs.Texts.{kind_of};

/// A kind of value.
#[derive(Clone, Copy, Debug, PartialEq, Eq)]
pub enum Kind {
    Null,
    True,
    False,
    Number,
    String,
    Array,
    Object,
}

/// A bracket that is open.
#[derive(Clone, Copy, Debug, PartialEq, Eq)]
pub enum Bracket {
    /// That of an array.
    Square,
    /// That of an object.
    Curly,
}

/// A part of a text.
#[derive(Clone, Copy, Debug, PartialEq, Eq)]
pub enum Part {
    Value,
    /// What stands behind a value in a bracket, up to the closing one.
    Behind(Bracket),
}

/// The kind of the value that begins with a byte; none where no value begins so.
pub fn kind_of(byte: u8) -> Option<Kind>
    ensures { result ≡ kind_of byte }
{
    match byte {
        b'n' => Some(Kind::Null),
        b't' => Some(Kind::True),
        b'f' => Some(Kind::False),
        b'-' => Some(Kind::Number),
        b'0'..=b'9' => Some(Kind::Number),
        b'"' => Some(Kind::String),
        b'[' => Some(Kind::Array),
        b'{' => Some(Kind::Object),
        _ => None,
    }
}
