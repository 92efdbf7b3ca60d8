//! What holds of words.
ghost use Rattle.capnp_words.specs.Laws.{CallsAreRead, OnlyPathsAreRead, PathsAreDifferent, PathsAreRead, PrintedValuesAreRead};

/// A path that is written as a word is read as that path. A word that is read as a path is the one that the path is
/// written as, so what is refused is no path's word. Two paths are never one word.
pub fn paths_are_read()
    ensures read { PathsAreRead }
    ensures only { OnlyPathsAreRead }
    ensures differ { PathsAreDifferent }
{}

/// A call that is written as a word is read as that call.
pub fn calls_are_read()
    ensures { CallsAreRead }
{}

/// What the printer prints of a void, a truth value, a number, an enum, a text of ASCII or data is read as that value
/// under its type. A number lies in its type's range; the names of the enum are distinct, and none begins with a digit.
pub fn printed_values_are_read()
    ensures { PrintedValuesAreRead }
{}
