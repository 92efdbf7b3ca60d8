//! What a text is read with.
ghost use Rattle.std.specs.Prelude.{◌≡◌, ◌-◌, length};
ghost use Rattle.capnp_from_json.specs.declared.error.Error.TheVariants.{Refused};

use crate::error::{Error, Refusal, RefusalKind};
use std::alloc::Global;

/// What a text is read with: what memory is taken of, how many bytes the text has, and whether unknown names are refused.
#[derive(Clone, Copy)]
pub struct Reading {
    pub alloc: Global,
    pub whole: usize,
    pub strict: bool,
}

impl Reading {
    /// The place at which these last bytes of the text begin.
    pub fn place_of(self, bytes: &[u8]) -> usize
        ensures { result ≡ self.whole - length bytes.now }
    {
        self.whole.saturating_sub(bytes.len())
    }
}

/// A refusal of what stands at a place.
pub fn refused(kind: RefusalKind, place: usize) -> Error
    ensures { result ≡ Refused (record { kind = kind; place = place }) }
{
    Error::Refused(Refusal { kind, place })
}
