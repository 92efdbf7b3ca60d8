//! Rule 6: the words of defaults and of annotations' values.
ghost use Rattle.std.specs.Prelude.{◌≡◌, ◌↔◌, IsTrue, MatchResult, None};
ghost use Rattle.capnp_wire.specs.Tree.{Null};
ghost use Rattle.capnp_wire.specs.Words.{first_fault};
ghost use Rattle.capnp_schema.specs.Schema.{Field, seen_annotations, seen_field, seen_value};
ghost use Rattle.capnp_schema.specs.Entries.{lists_seen};
ghost use Rattle.capnp_schema.specs.Accepted.{AreWords, Decodes, DefaultStands, EachOfEnum, HasWords, HaveAllWords, HaveWords, IsListOrNull, IsStructOrNull, NodeHasWords, Rule3, Rule6, words_root};
ghost use Rattle.capnp_schema.specs.Broken.{IsRefusalOf};
ghost use Rattle.capnp_schema.specs.Steps.Checking.Entry.{IsSoAt};

use crate::check::entries::{Annotated, Asked, broken_entry};
use crate::check::list_defaults::check_list_defaults;
use crate::check::refusal::{WHOLE, refusal};
use crate::lists::Lists;
use crate::record::{AnnotationRecord, EnumerantRecord, FieldKind, FieldRecord, ValueRecord};
use capnp_device::error::{Result, SchemaTable};
use capnp_wire::PointerReader;
use capnp_wire::size::ElementSize;

/// Whether bytes are one or more whole words.
fn are_words(bytes: &[u8]) -> bool
    ensures { IsTrue result ↔ AreWords bytes.now }
{
    bytes.len() > 0 && bytes.len() % 8 == 0
}

/// Whether the words of a value are; a value that is no struct, list or untyped pointer has none.
fn has_words(value: &ValueRecord) -> bool
    ensures { IsTrue result ↔ HasWords (seen_value value.now) }
{
    match value {
        ValueRecord::Struct(words) => are_words(words.as_slice()),
        ValueRecord::List(words) => are_words(words.as_slice()),
        ValueRecord::AnyPointer(words) => are_words(words.as_slice()),
        _ => true,
    }
}

/// Whether the words of each annotation's value are.
fn have_words(annotations: &[AnnotationRecord]) -> bool
    ensures { IsTrue result ↔ HaveWords (seen_annotations annotations.now) }
{
    for i in 0..annotations.len() {
        if !has_words(&annotations[i].value) {
            return false;
        }
    }
    true
}

/// Whether words hold a struct or null, in which each pointer can be followed.
fn is_struct(words: &[u8]) -> bool
    ensures { IsTrue result ↔ (first_fault (words_root words.now) ≡ None) × IsStructOrNull (words_root words.now) }
{
    let root = PointerReader::from_words(words);
    match root.first_fault() {
        Some(_) => false,
        None => match root.get_struct() {
            Ok(_) => true,
            Err(_) => false,
        },
    }
}

/// Whether words hold a list or null, in which each pointer can be followed.
fn is_list(words: &[u8]) -> bool
    ensures { IsTrue result ↔ (first_fault (words_root words.now) ≡ None) × IsListOrNull (words_root words.now) }
{
    let root = PointerReader::from_words(words);
    match root.first_fault() {
        Some(_) => false,
        None => match root.get_list(ElementSize::Void) {
            Ok(_) => true,
            Err(_) => false,
        },
    }
}

/// Whether words hold null.
fn is_null(words: &[u8]) -> bool
    ensures { IsTrue result ↔ (words_root words.now ≡ Null) }
{
    let root = PointerReader::from_words(words);
    root.is_null()
}

/// Whether a default is one of its own kind.
fn decodes(value: &ValueRecord) -> bool
    ensures { IsTrue result ↔ Decodes (seen_value value.now) }
{
    match value {
        ValueRecord::Struct(words) => is_struct(words.as_slice()),
        ValueRecord::List(words) => is_list(words.as_slice()),
        ValueRecord::AnyPointer(words) => is_null(words.as_slice()),
        ValueRecord::Text(bytes) => bytes.len() <= (1 << 29) - 2,
        ValueRecord::Data(bytes) => bytes.len() <= (1 << 29) - 1,
        _ => true,
    }
}

/// Whether a field's default has whole words and decodes; that of a group is nothing.
fn default_stands(field: &FieldRecord) -> bool
    ensures { IsTrue result ↔ DefaultStands (seen_field field.now) }
{
    match &field.kind {
        FieldKind::Slot { default, .. } => has_words(default) && decodes(default),
        FieldKind::Group { .. } => true,
    }
}

/// That a default stands.
struct StandingDefault;

impl Asked<StandingDefault> for FieldRecord {
    ghost Seen = { Field };

    ghost seen = { seen_field };

    ghost is_met = { DefaultStands };

    fn is_met(&self) -> bool {
        default_stands(self)
    }
}

/// That the words of each annotation's value are whole.
struct WholeWords;

impl<E: Annotated> Asked<WholeWords> for E {
    ghost Seen = { E.Seen };

    ghost seen = { E.seen };

    ghost is_met = { λ x. HaveWords (E.annotations_of x) };

    fn is_met(&self) -> bool {
        have_words(self.annotations())
    }
}

fn check_node_words(lists: &Lists, entry: usize) -> Result<()>
    requires { Rule3 (lists_seen lists.now) }
    ensures { MatchResult result (λ _. IsSoAt (lists_seen lists.now).nodes NodeHasWords entry)
        (IsRefusalOf (lists_seen lists.now)) }
{
    let Some(node) = lists.node_at(entry) else {
        return Ok(());
    };
    if !have_words(&node.annotations) {
        return Err(refusal(6, SchemaTable::Node, entry, WHOLE));
    }
    if let Some(field) = broken_entry::<WholeWords, FieldRecord>(&node.body.fields) {
        return Err(refusal(6, SchemaTable::Node, entry, field as u16));
    }
    match broken_entry::<StandingDefault, FieldRecord>(&node.body.fields) {
        Some(field) => Err(refusal(6, SchemaTable::Node, entry, field as u16)),
        None => Ok(()),
    }
}

fn check_enum_words(lists: &Lists, entry: usize) -> Result<()>
    requires { Rule3 (lists_seen lists.now) }
    ensures { MatchResult result (λ _. IsSoAt (lists_seen lists.now).enums (EachOfEnum HaveWords) entry)
        (IsRefusalOf (lists_seen lists.now)) }
{
    let Some(schema) = lists.enum_at(entry) else {
        return Ok(());
    };
    if !have_words(&schema.annotations) {
        return Err(refusal(6, SchemaTable::Enum, entry, WHOLE));
    }
    match broken_entry::<WholeWords, EnumerantRecord>(&schema.enumerants) {
        Some(field) => Err(refusal(6, SchemaTable::Enum, entry, field as u16)),
        None => Ok(()),
    }
}

/// Refuses the lists where words of a default or of an annotation's value are not whole, and where a default does not
/// decode as its own kind, with rule 6.
fn check_words(lists: &Lists) -> Result<()>
    requires { Rule3 (lists_seen lists.now) }
    ensures { MatchResult result (λ _. HaveAllWords (lists_seen lists.now)) (IsRefusalOf (lists_seen lists.now)) }
{
    for n in 0..lists.nodes.len() {
        check_node_words(lists, n)?;
    }
    for e in 0..lists.enums.len() {
        check_enum_words(lists, e)?;
    }
    Ok(())
}

/// Refuses the lists where rule 6 is broken: where the words of a value are not one or more whole words, where a
/// default does not decode as its own kind, where a text default has more than 2^29 - 2 bytes or a data default more
/// than 2^29 - 1, and where a list default is not read as its type's elements. Rule 3 has been checked before.
pub(crate) fn check_values(lists: &Lists) -> Result<()>
    requires { Rule3 (lists_seen lists.now) }
    ensures { MatchResult result (λ _. Rule6 (lists_seen lists.now)) (IsRefusalOf (lists_seen lists.now)) }
{
    check_words(lists)?;
    check_list_defaults(lists)?;
    Ok(())
}
