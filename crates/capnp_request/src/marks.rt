//! Types as a request says them, and the mark of fields of floats.
ghost use Rattle.std.specs.Prelude.{◌≡◌, ◌++◌, true, length, IfErr, IfOk};
ghost use Rattle.capnp_base.specs.Types.{type_from};
ghost use Rattle.capnp_device.specs.declared.error.ErrorKind.TheVariants.{OutOfMemory};
ghost use Rattle.capnp_schema.specs.Schema.{seen_annotation};
ghost use Rattle.capnp_schema.specs.Types.{VoidType, seen_type};
ghost use Rattle.capnp_request.specs.Conversion.{mark, marks};
ghost use Rattle.capnp_request.specs.Steps.Bindings.{seen_marked};
ghost use Rattle.capnp_request.specs.Steps.ConvertedSeen.{typed_annotations};
ghost use Rattle.capnp_request.specs.Work.{plain};

use capnp_base::introspect::{Type, TypeVariant};
use capnp_schema::record::{AnnotationRecord, ValueRecord};
use capnp_wire::error::Result;

/// The id of the annotation that says of a field that its numbers are floats.
const FLOAT_MARK: u64 = 0xf20f_bfb0_8027_d505;

/// A type as a request says it, where floats are types of their own: what stands for it in a set, and whether the
/// numbers inside its lists are floats.
#[derive(Clone, Copy, PartialEq, Eq, Hash)]
pub(crate) struct MarkedType {
    pub(crate) standing: Type,
    pub(crate) is_float: bool,
}

/// A type whose numbers are no floats.
pub(crate) fn plain(standing: Type) -> MarkedType
    ensures { seen_marked result ≡ plain (seen_type standing) }
{
    MarkedType {
        standing,
        is_float: false,
    }
}

/// A float that stands as an integer.
pub(crate) fn float(standing: TypeVariant) -> MarkedType
    ensures { seen_marked result ≡ record { type = seen_type (type_from standing); is_float = true } }
{
    MarkedType {
        standing: Type::from(standing),
        is_float: true,
    }
}

/// The mark of a field of floats.
fn float_mark() -> AnnotationRecord
    ensures { seen_annotation result ≡ mark }
{
    AnnotationRecord {
        id: FLOAT_MARK,
        value: ValueRecord::Void,
    }
}

/// The type of the mark's value.
fn mark_type() -> Type
    ensures { seen_type result ≡ VoidType }
{
    Type::from(TypeVariant::Void)
}

/// Adds the mark behind the annotations of a field of floats, and its type behind theirs.
pub(crate) fn add_mark(
    annotations: &mut Vec<AnnotationRecord>,
    types: &mut Vec<Type>,
    is_float: bool,
) -> Result<()>
    requires { length types.now.items ≡ length annotations.now.items }
    ensures added { IfOk result (λ _. typed_annotations annotations.new.items types.new.items
        ≡ typed_annotations annotations.old.items types.old.items ++ marks is_float) }
    ensures typed { IfOk result (λ _. length types.new.items ≡ length annotations.new.items) }
    ensures kinds { IfErr result (λ e. e.kind ≡ OutOfMemory) }
{
    if is_float {
        annotations.push(float_mark())?;
        types.push(mark_type())?;
    }
    Ok(())
}
