//! The JSON of a value is a text of its tree.
ghost use Rattle.std.specs.Prelude.{List, ℕ};
ghost use Rattle.std.specs.Str.{IsUtf8};
ghost use Rattle.capnp_json_text.specs.Writing.{string_written};
ghost use Rattle.capnp_json_laws.specs.Stands.{HasValue, IsString};
ghost use Rattle.capnp_json_laws.specs.Texts.{JsonHasItsTree, JsonIsOneValue};

/// What is written of a text is a JSON text alone, and its value is the string of these bytes.
pub fn strings_are_texts()
    ensures { (bytes : List ℕ) → IsUtf8 bytes → HasValue (string_written bytes) (IsString bytes) }
{}

/// The JSON of a value is one JSON value, whatever follows that may, and stands for the value's tree.
pub fn json_is_one_value()
    ensures { JsonIsOneValue }
{}

/// The JSON of a value is a JSON text, and the value of this text is the value's tree.
pub fn json_has_its_tree()
    ensures { JsonHasItsTree }
{}
