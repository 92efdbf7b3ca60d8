//! Rule 6: a list default is read as the elements of its field's type.
ghost use Rattle.std.specs.Prelude.{◌↔◌, All, IsTrue, MatchResult};
ghost use Rattle.capnp_schema.specs.Types.{seen_type, seen_variant};
ghost use Rattle.capnp_schema.specs.Schema.{ListValue, fields_of, seen_kind, seen_value};
ghost use Rattle.capnp_schema.specs.Entries.{lists_seen};
ghost use Rattle.capnp_schema.specs.Accepted.{KindDefault, ListDefaultsRead, ListReads, ReadsDefault, ReadsElements, Rule3, words_root};
ghost use Rattle.capnp_schema.specs.Broken.{IsRefusalOf};
ghost use Rattle.capnp_schema.specs.Steps.Checking.Entry.{IsSoAt};

use crate::check::refusal::refusal;
use crate::lists::Lists;
use crate::record::{FieldKind, ValueRecord};
use capnp_base::introspect::{Type, TypeVariant};
use capnp_device::error::{Result, SchemaTable};
use capnp_wire::PointerReader;

/// Whether words hold null or a list that is read as such elements.
fn are_read_as(words: &[u8], element: Type) -> bool
    ensures { IsTrue result ↔ ReadsElements (seen_type element) (words_root words.now) }
{
    let root = PointerReader::from_words(words);
    match root.get_list(element.expected_element_size()) {
        Ok(_) => true,
        Err(_) => false,
    }
}

/// Whether words are read as the elements of a layer, if it is a list.
fn layer_reads(words: &[u8], layer: TypeVariant) -> bool
    ensures { IsTrue result ↔ ListReads (ListValue words.now) (seen_variant layer) }
{
    match layer {
        TypeVariant::List(element) => are_read_as(words, element),
        _ => true,
    }
}

/// Whether a default is read as its type's elements, if it is a list of one.
fn value_reads(value: &ValueRecord, field_type: &Type) -> bool
    ensures { IsTrue result ↔ ListReads (seen_value value.now) (seen_type field_type.now) }
{
    match value {
        ValueRecord::List(words) => layer_reads(words.as_slice(), field_type.which()),
        _ => true,
    }
}

/// Whether a field's default is.
fn kind_reads(kind: &FieldKind, field_type: &Type) -> bool
    ensures { IsTrue result ↔ KindDefault ListReads (seen_kind kind.now) (seen_type field_type.now) }
{
    match kind {
        FieldKind::Slot { default, .. } => value_reads(default, field_type),
        FieldKind::Group { .. } => true,
    }
}

fn check_list_default(lists: &Lists, brand: usize, field: usize) -> Result<()>
    requires { Rule3 (lists_seen lists.now) }
    ensures { MatchResult result (λ _. IsSoAt (fields_of (lists_seen lists.now) brand) ReadsDefault field)
        (IsRefusalOf (lists_seen lists.now)) }
{
    let Some(typed) = lists.field_at(brand, field) else {
        return Ok(());
    };
    if !kind_reads(&typed.field.kind, typed.field_type) {
        return Err(refusal(6, SchemaTable::Brand, brand, field as u16));
    }
    Ok(())
}

fn check_brand_defaults(lists: &Lists, brand: usize) -> Result<()>
    requires { Rule3 (lists_seen lists.now) }
    ensures { MatchResult result (λ _. All ReadsDefault (fields_of (lists_seen lists.now) brand))
        (IsRefusalOf (lists_seen lists.now)) }
{
    for i in 0..lists.field_count(brand) {
        check_list_default(lists, brand, i)?;
    }
    Ok(())
}

/// Refuses the lists where a list default is not read as its type's elements, with rule 6.
pub(crate) fn check_list_defaults(lists: &Lists) -> Result<()>
    requires { Rule3 (lists_seen lists.now) }
    ensures { MatchResult result (λ _. ListDefaultsRead (lists_seen lists.now)) (IsRefusalOf (lists_seen lists.now)) }
{
    for b in 0..lists.brands.len() {
        check_brand_defaults(lists, b)?;
    }
    Ok(())
}
