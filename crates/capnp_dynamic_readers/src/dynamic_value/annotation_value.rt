//! The values of annotations, whose types are known only at run time.
ghost use Rattle.std.specs.Prelude.{◌≡◌, Result};
ghost use Rattle.capnp_device.specs.declared.error.Error.{Error};
ghost use Rattle.capnp_dynamic_readers.specs.Annotated.{annotation_read};
ghost use Rattle.capnp_dynamic_readers.specs.Seen.{answered_value};
ghost use Rattle.capnp_dynamic_readers.specs.declared.dynamic_value.Reader.{Reader};

use crate::dynamic_value;
use capnp_schema::schema::Annotation;
use capnp_wire::error::Result;

/// A value of a set that is read under its type.
pub trait AnnotationValue<'s>: Sized {
    // What is read.
    ghost gives: { Self → Result Reader Error → Type 0 };

    /// The value, under its type.
    fn get_value(self) -> Result<dynamic_value::Reader<'s>>
        ensures { gives self result };
}

impl<'s> AnnotationValue<'s> for Annotation<'s> {
    ghost gives = { λ x r. answered_value r ≡ annotation_read x };

    /// The value of the annotation: a void, a truth value, a number, a text or data whatever its type, and an enum, a
    /// struct, a list and an untyped pointer under their type; refused as `TypeMismatch` under another. A struct or
    /// list is read on 64 levels, and refused as one behind a pointer is.
    fn get_value(self) -> Result<dynamic_value::Reader<'s>> {
        dynamic_value::Reader::new(self.get_set(), self.get_value_view(), self.get_type())
    }
}
