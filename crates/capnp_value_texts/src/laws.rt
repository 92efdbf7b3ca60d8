//! What holds of values that are printed, as contracts of functions that do nothing.
ghost use Rattle.capnp_value_texts.specs.Laws.{PrintedLeavesAreSet};
ghost use Rattle.capnp_value_texts.specs.Lines.{LinesAreRead};

use capnp_words::laws::printed_values_are_read;

/// What the printer prints of a void, a truth value, a number, an enum, a text of ASCII or data has one call under a field of
/// its type whose numbers are none of floats: it sets that value. Numbers and enums are as
/// `capnp_words::laws::printed_values_are_read` has them; in names of enumerants is no blank, comma, bracket, quote or `<`.
pub fn printed_leaves_are_set()
    ensures { PrintedLeavesAreSet }
{
    printed_values_are_read();
}

/// What is written on one line, with names, commas and brackets as the printer has them, is read as that, with each place.
pub fn lines_are_read()
    ensures { LinesAreRead }
{}
