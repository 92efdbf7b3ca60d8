//! What holds of what is printed of whole values, as contracts of functions that do nothing.
ghost use Rattle.capnp_value_laws.specs.Laws.{OneLineIsOneText, PrintedElementsAreMade, PrintedFieldsAreMade, PrintedRecordsAreMade, WholeValuesArePrinted};
ghost use Rattle.capnp_value_laws.specs.Messages.{PrintedElementsAreRead, PrintedFieldsAreRead, PrintedRootsAreRead};
ghost use Rattle.capnp_value_laws.specs.Readers.{ReadersComeBack};
ghost use Rattle.capnp_value_laws.specs.Texts.{TextsAreRead};

use capnp_words::laws::printed_values_are_read;
use capnp_words::marked::floats_are_read_back;

/// What is printed of a whole value, with its floats, is a text of its tree, on one line and on lines. So it is, here and below, where a
/// printer shows none, under a set that has none (`IsPrint`).
pub fn whole_values_are_printed()
    ensures { WholeValuesArePrinted }
{}

/// Each text of a tree is read as the tree, but for its places: with each part on a line of its own or all on one, and brackets
/// that hold nothing closed at once or on the next line.
pub fn texts_are_read()
    ensures { TextsAreRead }
{}

/// Without lines the tree has one text, its line.
pub fn one_line_is_one_text()
    ensures { OneLineIsOneText }
{}

/// What is printed of a whole record, on one line and on lines, is read as calls by which a new record becomes it. Whole is what stands
/// in its text as it is (`IsWhole`): no float that is no number, no untyped pointers, texts of ASCII alone, nothing that can't be read.
pub fn printed_records_are_made()
    ensures { PrintedRecordsAreMade }
{
    printed_values_are_read();
    floats_are_read_back();
}

/// The same of a value of a field: the calls leave it in its field, in any record, and nothing else is another.
pub fn printed_fields_are_made()
    ensures { PrintedFieldsAreMade }
{
    printed_values_are_read();
    floats_are_read_back();
}

/// The same of an element of the lists that a field is, one within another: each has it alone then.
pub fn printed_elements_are_made()
    ensures { PrintedElementsAreMade }
{
    printed_values_are_read();
    floats_are_read_back();
}

/// So a message that `capnp_value_texts::value::read_root` makes of what is printed of a whole record has that record, and that
/// text is refused for the want of memory alone, or because a list has no room in the format.
pub fn printed_roots_are_read()
    ensures { PrintedRootsAreRead }
{
    printed_values_are_read();
    floats_are_read_back();
}

/// The same of `read_field` and a field's value.
pub fn printed_fields_are_read()
    ensures { PrintedFieldsAreRead }
{
    printed_values_are_read();
    floats_are_read_back();
}

/// The same of `read_element` and an element.
pub fn printed_elements_are_read()
    ensures { PrintedElementsAreRead }
{
    printed_values_are_read();
    floats_are_read_back();
}

/// What a reader prints of a struct whose record is whole, with any levels left, makes that record.
pub fn readers_come_back()
    ensures { ReadersComeBack }
{
    printed_values_are_read();
    floats_are_read_back();
}
