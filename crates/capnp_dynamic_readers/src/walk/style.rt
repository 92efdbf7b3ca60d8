//! Styles of texts: what the walk of a print asks of one.
ghost use Rattle.std.specs.Prelude.{◌≡◌, IfErr, OnOk, refl};
ghost use Rattle.capnp_schema.specs.FieldLists.{typed_of};
ghost use Rattle.capnp_schema.specs.Schema.{TypedField};
ghost use Rattle.capnp_records.specs.Text.{said_text};
ghost use Rattle.capnp_dynamic_readers.specs.Facts.PlainTexts.{plain_lawful};
ghost use Rattle.capnp_dynamic_readers.specs.Steps.Pieces.{IsPut, IsStopped};
ghost use Rattle.capnp_dynamic_readers.specs.Steps.Styled.{IsTexts, plain_texts};
ghost use Rattle.capnp_dynamic_readers.specs.Styles.{Texts};

use crate::walk::output::{Out, Stop};
use capnp_schema::schema::Field;

/// A style of texts: how numbers of 32 and of 64 bits without a sign are shown, by the field under which they stand.
/// Everything else has one form.
pub trait Style<O: Out>: Copy {
    // The texts that values have in the style, and the style of what stands under a field.
    ghost texts: { Self → Texts };

    ghost under: { Self → TypedField → Self };

    /// The style of what stands under a field.
    fn under(self, field: Field<'_>) -> Self
        ensures { result ≡ under self (typed_of field.entry) };

    /// Appends a number of 32 bits.
    fn put_narrow(self, number: u32, out: &mut O) -> Result<(), Stop>
        ensures put { OnOk result (IsPut (O.text out.old) (said_text ((texts self).narrow number)) (O.text out.new)) }
        ensures stopped { IfErr result (IsStopped (O.text out.old) (said_text ((texts self).narrow number))) };

    /// Appends a number of 64 bits.
    fn put_wide(self, number: u64, out: &mut O) -> Result<(), Stop>
        ensures put { OnOk result (IsPut (O.text out.old) (said_text ((texts self).wide number)) (O.text out.new)) }
        ensures stopped { IfErr result (IsStopped (O.text out.old) (said_text ((texts self).wide number))) };

    // The text of a whole is made of the texts of its parts.
    ghost lawful: { (style : Self) → IsTexts (texts style) (λ field. texts (under style field)) };
}

/// The style of the texts of records: each number in decimal.
#[derive(Clone, Copy)]
pub struct Plain;

impl<O: Out> Style<O> for Plain {
    fn under(self, _field: Field<'_>) -> Plain {
        self
    }

    fn put_narrow(self, number: u32, out: &mut O) -> Result<(), Stop> {
        out.put_unsigned(u64::from(number))
    }

    fn put_wide(self, number: u64, out: &mut O) -> Result<(), Stop> {
        out.put_unsigned(number)
    }

    ghost texts = { λ _. plain_texts };

    ghost under = { λ style _. style };

    ghost lawful = { λ _. plain_lawful };
}
