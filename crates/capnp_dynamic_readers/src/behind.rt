//! What stands behind a pointer, or in its default where it is null.
ghost use Rattle.std.specs.Prelude.{ℕ, ◌≡◌};
ghost use Rattle.std.specs.Option.{option_copied};
ghost use Rattle.capnp_schema.specs.Schema.{Schemas, VoidValue, kind_default, seen_kind};
ghost use Rattle.capnp_schema.specs.Types.{DataType, ListType, SchemaType, StructType, TextType, element_size};
ghost use Rattle.capnp_dynamic_readers.specs.Reads.{pointer_read};
ghost use Rattle.capnp_dynamic_readers.specs.Steps.Behind.{data_answered, data_of, list_answered, default_list_words, struct_answered, struct_words, text_answered, default_text_bytes};

use capnp_schema::record::{FieldKind, ValueRecord};
use capnp_wire::error::Result;
use capnp_wire::size::ElementSize;
use capnp_wire::{ListReader, PointerReader, StructReader};

/// The bytes of a text's default.
fn text_default(kind: &FieldKind) -> &[u8]
    ensures { result.now ≡ default_text_bytes (kind_default (seen_kind kind.now)) }
{
    match kind {
        FieldKind::Slot { offset: _, default } => match default {
            ValueRecord::Text(bytes) => bytes.as_slice(),
            _ => &[],
        },
        FieldKind::Group { node: _ } => &[],
    }
}

/// The bytes of a data's default.
fn data_default(kind: &FieldKind) -> &[u8]
    ensures { result.now ≡ data_of (kind_default (seen_kind kind.now)) }
{
    match kind {
        FieldKind::Slot { offset: _, default } => match default {
            ValueRecord::Data(bytes) => bytes.as_slice(),
            _ => &[],
        },
        FieldKind::Group { node: _ } => &[],
    }
}

/// The words of a struct's default, none where the default is of another kind.
fn struct_default(kind: &FieldKind) -> Option<&[u8]>
    ensures { option_copied result ≡ struct_words (kind_default (seen_kind kind.now)) }
{
    match kind {
        FieldKind::Slot { offset: _, default } => match default {
            ValueRecord::Struct(words) => Some(words.as_slice()),
            _ => None,
        },
        FieldKind::Group { node: _ } => None,
    }
}

/// The words of a list's default, none where the default is of another kind.
fn list_default(kind: &FieldKind) -> Option<&[u8]>
    ensures { option_copied result ≡ default_list_words (kind_default (seen_kind kind.now)) }
{
    match kind {
        FieldKind::Slot { offset: _, default } => match default {
            ValueRecord::List(words) => Some(words.as_slice()),
            _ => None,
        },
        FieldKind::Group { node: _ } => None,
    }
}

/// The text, or its default's bytes.
#[tactic(auto, using(crate::proofs::Pointed::text_null, crate::proofs::Pointed::text_there))]
pub(crate) fn read_text<'a>(kind: &'a FieldKind, pointer: &PointerReader<'a>) -> Result<&'a [u8]>
    ensures { (schemas : Schemas) → text_answered result
        ≡ pointer_read schemas (kind_default (seen_kind kind.now)) TextType pointer.now }
{
    if pointer.is_null() {
        return Ok(text_default(kind));
    }
    pointer.get_text()
}

/// The data, or its default's bytes.
#[tactic(auto, using(crate::proofs::Pointed::data_null, crate::proofs::Pointed::data_there))]
pub(crate) fn read_data<'a>(kind: &'a FieldKind, pointer: &PointerReader<'a>) -> Result<&'a [u8]>
    ensures { (schemas : Schemas) → data_answered result
        ≡ pointer_read schemas (kind_default (seen_kind kind.now)) DataType pointer.now }
{
    if pointer.is_null() {
        return Ok(data_default(kind));
    }
    pointer.get_data()
}

/// The struct, or its default's. A null asks a level for itself before its default is entered.
#[tactic(auto, using(crate::proofs::Pointed::struct_refused, crate::proofs::Pointed::struct_there, crate::proofs::Pointed::struct_bare, crate::proofs::Pointed::struct_null, crate::proofs::Pointed::struct_from_words))]
pub(crate) fn read_struct<'a>(
    kind: &'a FieldKind,
    pointer: &PointerReader<'a>,
) -> Result<StructReader<'a>>
    ensures { (schemas : Schemas) (b g : ℕ) → struct_answered schemas b result
        ≡ pointer_read schemas (kind_default (seen_kind kind.now)) (StructType b g) pointer.now }
{
    let here = pointer.get_struct()?;
    if !pointer.is_null() {
        return Ok(here);
    }
    let Some(words) = struct_default(kind) else {
        return Ok(here);
    };
    let default = PointerReader::from_words(words);
    if default.is_null() {
        return Ok(here);
    }
    default.get_struct()
}

/// The list, or its default's. A null asks a level for itself before its default is entered.
#[tactic(auto, using(crate::proofs::Pointed::list_refused, crate::proofs::Pointed::list_there, crate::proofs::Pointed::list_bare, crate::proofs::Pointed::list_null, crate::proofs::Pointed::list_from_words))]
pub(crate) fn read_list<'a>(
    kind: &'a FieldKind,
    size: ElementSize,
    pointer: &PointerReader<'a>,
) -> Result<ListReader<'a>>
    ensures { (schemas : Schemas) (e : SchemaType) → element_size e ≡ size
        → list_answered schemas e result ≡ pointer_read schemas (kind_default (seen_kind kind.now)) (ListType e) pointer.now }
{
    let here = pointer.get_list(size)?;
    if !pointer.is_null() {
        return Ok(here);
    }
    let Some(words) = list_default(kind) else {
        return Ok(here);
    };
    let default = PointerReader::from_words(words);
    if default.is_null() {
        return Ok(here);
    }
    default.get_list(size)
}

/// The text, empty for a null.
#[tactic(auto, using(crate::proofs::Pointed::text_undefaulted))]
pub(crate) fn undefaulted_text<'a>(pointer: &PointerReader<'a>) -> Result<&'a [u8]>
    ensures { (schemas : Schemas) → text_answered result ≡ pointer_read schemas VoidValue TextType pointer.now }
{
    pointer.get_text()
}

/// The data, empty for a null.
#[tactic(auto, using(crate::proofs::Pointed::data_undefaulted))]
pub(crate) fn undefaulted_data<'a>(pointer: &PointerReader<'a>) -> Result<&'a [u8]>
    ensures { (schemas : Schemas) → data_answered result ≡ pointer_read schemas VoidValue DataType pointer.now }
{
    pointer.get_data()
}

/// The list, empty for a null.
#[tactic(auto, using(crate::proofs::Pointed::list_undefaulted))]
pub(crate) fn undefaulted_list<'a>(
    size: ElementSize,
    pointer: &PointerReader<'a>,
) -> Result<ListReader<'a>>
    ensures { (schemas : Schemas) (e : SchemaType) → element_size e ≡ size
        → list_answered schemas e result ≡ pointer_read schemas VoidValue (ListType e) pointer.now }
{
    pointer.get_list(size)
}

/// The struct, one of size zero for a null.
#[tactic(auto, using(crate::proofs::Pointed::struct_undefaulted))]
pub(crate) fn undefaulted_struct<'a>(pointer: &PointerReader<'a>) -> Result<StructReader<'a>>
    ensures { (schemas : Schemas) (b g : ℕ) → struct_answered schemas b result
        ≡ pointer_read schemas VoidValue (StructType b g) pointer.now }
{
    pointer.get_struct()
}
