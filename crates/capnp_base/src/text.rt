//! Text: its bytes as they are read.
ghost use Rattle.std.specs.Prelude.{[], Some, ◌↔◌, ◌≡◌, IfErr, IfOk, IsTrue, IsUtf8, length, nat_eq, OnErr};
ghost use Rattle.std.proofs.Common.{rules};
ghost use Rattle.std.specs.Cmp.{on_po};
ghost use Rattle.std.specs.Cmp.Lexicographic.{pointwise, slice_cmp, texts_po};
ghost use Rattle.std.specs.Cmp.Rules.{comparing};
ghost use Rattle.std.specs.Ordering.{nat_cmp, on};
ghost use Rattle.capnp_wire.specs.Reading.{as_text};
ghost use Rattle.capnp_base.specs.Text.{IsStringOf, IsStrOf, text_read};
ghost use Rattle.capnp_base.specs.Types.{base_type};
ghost use Rattle.capnp_base.specs.declared.introspect.BaseType.TheVariants as base;
ghost use Rattle.capnp_device.specs.declared.error.ErrorKind.TheVariants.{OutOfMemory};

use crate::introspect::{Introspect, Type, TypeVariant};
use crate::traits::FromPointerReader;
use capnp_wire::PointerReader;
use capnp_wire::error::Result;
use std::alloc::Global;
use std::cmp::Ordering;
use std::fmt;
use std::str::Utf8Error;

/// The type of texts.
#[derive(Clone, Copy)]
pub struct Owned {
    _private: (),
}

impl Introspect for Owned {
    ghost type_of = { base_type base.Text };

    fn introspect() -> Type {
        Type::from(TypeVariant::Text)
    }
}

/// The bytes of a text, which need not be UTF-8. Texts are compared by their bytes.
#[derive(Clone, Copy)]
pub struct Reader<'a>(pub &'a [u8]);

impl PartialEq for Reader<'_> {
    ghost eq = { on (λ reader. reader.0.now) (pointwise nat_eq) };

    ghost laws = { Prim.search (comparing, rules) };

    fn eq(&self, other: &Self) -> bool {
        self.0 == other.0
    }
}

impl PartialOrd for Reader<'_> {
    ghost partial_cmp = { λ x y. Some (slice_cmp nat_cmp x.0.now y.0.now) };

    ghost laws = { on_po (λ reader. reader.0.now) texts_po };

    fn partial_cmp(&self, other: &Self) -> Option<Ordering> {
        Some(self.0.cmp(other.0))
    }
}

impl fmt::Debug for Reader<'_> {
    fn fmt<W: fmt::Write>(&self, f: &mut fmt::Formatter<W>) -> fmt::Result {
        match self.to_str() {
            Ok(text) => write!(f, "{text:?}"),
            Err(_) => write!(f, "<invalid utf-8: {:?}>", self.0),
        }
    }
}

impl<'a> From<&'a str> for Reader<'a> {
    ghost from_gives = { λ value reader. reader.0.now ≡ value.now };

    fn from(value: &'a str) -> Reader<'a> {
        Reader(value.as_bytes())
    }
}

impl<'a> From<&'a [u8]> for Reader<'a> {
    ghost from_gives = { λ value reader. reader.0.now ≡ value.now };

    fn from(value: &'a [u8]) -> Reader<'a> {
        Reader(value)
    }
}

impl<'a, const N: usize> From<&'a [u8; N]> for Reader<'a> {
    ghost from_gives = { λ value reader. reader.0.now ≡ value.now };

    fn from(value: &'a [u8; N]) -> Reader<'a> {
        Reader(value)
    }
}

impl<'a> TryFrom<Reader<'a>> for &'a str {
    type Error = Utf8Error;

    ghost try_from_gives = { λ value str. IsStrOf value.0.now str };

    fn try_from(value: Reader<'a>) -> std::result::Result<&'a str, Utf8Error> {
        value.to_str()
    }
}

impl<'a> Reader<'a> {
    /// How many bytes there are.
    pub fn len(&self) -> usize
        ensures { result ≡ length self.now.0.now }
    {
        self.0.len()
    }

    /// Whether there is no byte.
    pub fn is_empty(&self) -> bool
        ensures { IsTrue result ↔ (self.now.0.now ≡ []) }
    {
        self.0.is_empty()
    }

    /// The bytes.
    pub fn as_bytes(self) -> &'a [u8]
        ensures { result.now ≡ self.entry.0.now }
    {
        self.0
    }

    /// The text as a `str`, or the error that says how many bytes of it are UTF-8.
    pub fn to_str(self) -> std::result::Result<&'a str, Utf8Error>
        ensures { IsStrOf self.entry.0.now result }
    {
        std::str::from_utf8(self.0)
    }

    /// A copy of the text as a `String`, or the error of `to_str`.
    ///
    /// Refused with `OutOfMemory`, and only where the text is UTF-8.
    pub fn to_string(self, alloc: Global) -> Result<std::result::Result<String, Utf8Error>>
        ensures string { IfOk result (IsStringOf self.entry.0.now) }
        ensures refused { IfErr result (λ e. e.kind ≡ OutOfMemory) }
        ensures utf8 { OnErr result (IsUtf8 self.entry.0.now) }
    {
        match self.to_str() {
            Ok(text) => Ok(Ok(String::from_str(alloc, text)?)),
            Err(error) => Ok(Err(error)),
        }
    }

    /// Whether the bytes are those of a `str`.
    pub fn eq_str(&self, other: &str) -> bool
        ensures { IsTrue result ↔ (self.now.0.now ≡ other.now) }
    {
        self.0 == other.as_bytes()
    }

    /// Compares the bytes with those of a `str`: the first that differ decide, and else the lengths do.
    pub fn cmp_str(&self, other: &str) -> Ordering
        ensures { result ≡ slice_cmp nat_cmp self.now.0.now other.now }
    {
        self.0.cmp(other.as_bytes())
    }
}

impl<'a> FromPointerReader<'a> for Reader<'a> {
    ghost reads = { λ tree _ result. text_read result ≡ as_text tree };

    fn get_from_pointer(
        reader: &PointerReader<'a>,
        default: Option<PointerReader<'a>>,
    ) -> Result<Reader<'a>> {
        match default {
            Some(other) if reader.is_null() => Ok(Reader(other.get_text()?)),
            _ => Ok(Reader(reader.get_text()?)),
        }
    }
}
