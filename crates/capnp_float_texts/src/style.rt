//! The style of the texts that show floats.
ghost use Rattle.std.specs.Prelude.{◌≡◌, IfErr, OnOk, cond, decimal, refl};
ghost use Rattle.capnp_floats.specs.declared.width.Width.TheVariants.{Float32, Float64};
ghost use Rattle.capnp_records.specs.Text.{said_text};
ghost use Rattle.capnp_dynamic_readers.specs.Pieces.{made_text};
ghost use Rattle.capnp_dynamic_readers.specs.Steps.Pieces.{IsPut, IsStopped};
ghost use Rattle.capnp_json_fields.specs.Marks.{is_float};
ghost use Rattle.capnp_float_texts.specs.Facts.FloatTexts.{float_lawful};
ghost use Rattle.capnp_float_texts.specs.Steps.FloatTexts.{float_texts};
ghost use Rattle.capnp_float_texts.specs.Numbers.{float_bytes};

use crate::laws::floats_have_one_text;
use capnp_dynamic_readers::walk::output::{Made, Out, Stop};
use capnp_dynamic_readers::walk::style::Style;
use capnp_floats::text::put_float;
use capnp_floats::width::Width;
use capnp_json_fields::fields::is_float;
use capnp_schema::schema::Field;

/// The style of texts with floats, and whether the numbers of what is shown are some.
#[derive(Clone, Copy)]
pub(crate) struct Floats {
    pub(crate) marked: bool,
}

/// Appends a float by its bits, of which a width of 32 has the lowest 32.
fn put_bits(out: &mut Made, width: Width, bits: u64) -> Result<(), Stop>
    ensures put { OnOk result (IsPut (made_text out.old) (said_text (float_bytes width bits)) (made_text out.new)) }
    ensures stopped { IfErr result (IsStopped (made_text out.old) (said_text (float_bytes width bits))) }
{
    // The prover learns from this call that the float has no other text.
    floats_have_one_text();
    match put_float(&mut out.text, width, bits) {
        Ok(()) => out.allow(0),
        Err(_) => Err(Stop::Full),
    }
}

impl Style<Made> for Floats {
    fn under(self, field: Field<'_>) -> Floats {
        Floats {
            marked: is_float(field),
        }
    }

    fn put_narrow(self, number: u32, out: &mut Made) -> Result<(), Stop> {
        if self.marked {
            put_bits(out, Width::Float32, number as u64)
        } else {
            out.put_unsigned(number as u64)
        }
    }

    fn put_wide(self, number: u64, out: &mut Made) -> Result<(), Stop> {
        if self.marked {
            put_bits(out, Width::Float64, number)
        } else {
            out.put_unsigned(number)
        }
    }

    ghost texts = { λ style. float_texts style.marked };

    ghost under = { λ style field. record { marked = is_float field } };

    ghost lawful = { λ style. float_lawful style.marked };
}
