//! What the bits of a data section are to the wire, which reads and writes numbers and single bits.
ghost use Rattle.capnp_schema.specs.SlotBits.{BitsAreBounded, BitsAreMasked, BitsAreNumbers, BitsAreSingle, BitsAreWritten, MasksKeepBounds, MasksUndo, NumbersAreWritten, SlotsAreRead, SlotsAreWritten};

/// The bits of whole bytes are the number that the wire reads there, and a single bit is the wire's. So many bits are a
/// number below 2 to their count.
pub fn bits_are_numbers()
    ensures numbers { BitsAreNumbers }
    ensures single { BitsAreSingle }
    ensures bounded { BitsAreBounded }
{}

/// A mask that is applied twice changes nothing, and one of so many bits leaves a number of so many. A bit with a mask
/// is the wire's bit with its default.
pub fn masks_undo()
    ensures undo { MasksUndo }
    ensures bounded { MasksKeepBounds }
    ensures bits { BitsAreMasked }
{}

/// A number or a bit that the wire writes is there, and every other bit is as it was.
pub fn written_bits_are_read()
    ensures numbers { NumbersAreWritten }
    ensures bits { BitsAreWritten }
{}

/// The number of a data slot is the number or bit that the wire reads there, with the mask of the slot's plan. One that
/// is stored with the mask is the slot's then, and every other bit is as it was.
pub fn slots_are_numbers()
    ensures read { SlotsAreRead }
    ensures written { SlotsAreWritten }
{}
