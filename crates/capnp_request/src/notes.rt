//! Notes on what stands for something else in a converted set.
ghost use Rattle.std.specs.Prelude.{◌≡◌, false};
ghost use Rattle.capnp_request.specs.Steps.Bindings.{flags};
ghost use Rattle.capnp_request.specs.Work.{nothing_seen};

/// What stands for a type or default that sets of schemas do not have.
#[derive(Clone, Copy, Debug, PartialEq, Eq)]
pub enum StandIn {
    /// A `Float32` stands as `UInt32`.
    Float32,
    /// A `Float64` stands as `UInt64`.
    Float64,
    /// An interface stands as an untyped pointer.
    Interface,
    /// The default of an untyped field is left out.
    UntypedDefault,
}

/// That something stands for another type, or a default is left out: the field, by the number of its entry and its
/// index there, and what it is.
#[derive(Clone, Copy, Debug, PartialEq, Eq)]
pub struct Note {
    pub entry: u32,
    pub field: u32,
    pub stand_in: StandIn,
}

/// What the type of a field, or its default, was converted with.
#[derive(Clone, Copy)]
pub(crate) struct Seen {
    pub(crate) float32: bool,
    pub(crate) float64: bool,
    pub(crate) interface: bool,
    pub(crate) untyped_default: bool,
}

impl Seen {
    /// Nothing that is noted.
    pub(crate) fn nothing() -> Seen
        ensures seen { flags result ≡ nothing_seen }
        ensures default { result.untyped_default ≡ false }
    {
        Seen {
            float32: false,
            float64: false,
            interface: false,
            untyped_default: false,
        }
    }
}
