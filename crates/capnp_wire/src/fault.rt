//! Why a pointer can't be followed.
ghost use Rattle.std.specs.Prelude.{◌≡◌};
ghost use Rattle.capnp_wire.specs.Reading.{refusal};

use capnp_device::error::{Error, ErrorKind};

/// Why a pointer can't be followed. What stands at such a pointer is a fault leaf: the read of it is refused, and the
/// parts of the message beside it still read.
#[derive(Clone, Copy, Debug, PartialEq, Eq)]
pub enum Fault {
    /// A target, landing pad or tag lies outside its segment or is malformed.
    BadPointer,
    /// No level is left for what the pointer leads to.
    TooDeep,
    /// The pointer is a capability.
    CapabilityPointer,
}

/// The refusal of a read of a fault leaf.
pub fn refuse(fault: Fault) -> Error
    ensures { result.kind ≡ refusal fault }
{
    let kind = match fault {
        Fault::BadPointer => ErrorKind::BadPointer,
        Fault::TooDeep => ErrorKind::TooDeep,
        Fault::CapabilityPointer => ErrorKind::CapabilityPointer,
    };
    Error { kind }
}
