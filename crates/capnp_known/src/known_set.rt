//! Sets that are known when the code is written.
ghost use Rattle.capnp_schema.specs.Schema.{Schemas};

/// A set that is known when the code is written. A type stands for it, as no value of it is needed.
pub trait KnownSet {
    // The set to definitions.
    ghost set: { Schemas };
}
