//! What holds of texts with floats.
ghost use Rattle.capnp_float_texts.specs.Laws.{TextsWithoutFloats};
ghost use Rattle.capnp_float_texts.specs.Numbers.{FloatsHaveOneText};

use capnp_floats::laws::decimals_are_unique;

/// A float has one text, and the definition of texts has it.
pub fn floats_have_one_text()
    ensures { FloatsHaveOneText }
{
    // The prover learns from this call that a number has no other decimal.
    decimals_are_unique();
}

/// Where the numbers of no field of a set are floats, the text of each value is the one that shows none.
pub fn unmarked_texts_are_texts()
    ensures { TextsWithoutFloats }
{}
