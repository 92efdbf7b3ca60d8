//! What is written of leaves is read back, as contracts of functions that do nothing.
ghost use Rattle.capnp_json_messages.specs.ReadBack.{DataIsReadBack, IntegersAreReadBack};

/// Data that is written in base64 or by hexadecimal digits is read as the same bytes.
pub fn data_is_read_back()
    ensures { DataIsReadBack }
{}

/// An integer of at most 64 bits is read of its decimal digits, with or without a sign.
pub fn integers_are_read_back()
    ensures { IntegersAreReadBack }
{}
