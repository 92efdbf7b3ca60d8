//! What holds of the values that are told.
ghost use Rattle.capnp_structs.specs.Laws.{ValuesWithoutFloats};

use capnp_float_texts::laws::unmarked_texts_are_texts;

/// Where the numbers of no field of a set are floats, a default is told by its integers, as the value of an annotation.
pub fn unmarked_values_are_integers()
    ensures { ValuesWithoutFloats }
{
    // The prover learns from this call that the printers of both agree then.
    unmarked_texts_are_texts();
}
