//! How the values of a field are written.
ghost use Rattle.std.specs.Prelude.{◌≡◌};
ghost use Rattle.capnp_schema.specs.FieldLists.{typed_of};
ghost use Rattle.capnp_json.specs.Json.{form_of, plain};

use capnp_json_fields::fields::{DataForm, data_form, is_float};
use capnp_schema::schema::Field;

/// Whether numbers are floats by their bits, and the form of data. A list hands both on to its elements.
#[derive(Clone, Copy, Debug, PartialEq, Eq)]
pub struct Form {
    pub floats: bool,
    pub bytes: DataForm,
}

/// That of a value that stands alone: numbers are integers, and data an array of its bytes.
pub fn plain() -> Form
    ensures { result ≡ plain }
{
    Form {
        floats: false,
        bytes: DataForm::Array,
    }
}

/// That of a field's values, as its annotations say.
pub fn form_of(field: Field<'_>) -> Form
    ensures { result ≡ form_of (typed_of field.entry) }
{
    Form {
        floats: is_float(field),
        bytes: data_form(field),
    }
}
