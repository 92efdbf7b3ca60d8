//! Defaults that are the same: of one kind, with equal numbers, bytes or trees.
ghost use Rattle.std.specs.Prelude.{◌≡◌, ◌↔◌, [], IsTrue};
ghost use Rattle.capnp_schema.specs.Accepted.{words_root};
ghost use Rattle.capnp_schema.specs.Schema.{seen_value, seen_kind};
ghost use Rattle.capnp_records.specs.Compatible.{SameDefault};
ghost use Rattle.capnp_differences.specs.Differences.{SameDefaults};
ghost use Rattle.capnp_differences.specs.Steps.Comparing.{tree_kind, value_words};

use capnp_schema::record::{FieldKind, ValueRecord};
use capnp_wire::PointerReader;

/// Whether words have the same tree, however far their bytes are apart.
fn have_same_tree(one: &[u8], other: &[u8]) -> bool
    ensures { IsTrue result ↔ (words_root one.now ≡ words_root other.now) }
{
    PointerReader::from_words(one).has_same_tree(&PointerReader::from_words(other))
}

/// Whether values are equal, bytes of words too.
fn are_equal(one: &ValueRecord, other: &ValueRecord) -> bool
    ensures { IsTrue result ↔ (seen_value one.now ≡ seen_value other.now) }
{
    *one == *other
}

/// Which tree a value's words have: none, that of a struct, a list or an untyped pointer.
fn tree_kind(value: &ValueRecord) -> u8
    ensures { result ≡ tree_kind (seen_value value.now) }
{
    match value {
        ValueRecord::Struct(_) => 1,
        ValueRecord::List(_) => 2,
        ValueRecord::AnyPointer(_) => 3,
        _ => 0,
    }
}

/// The words of a value; none where it has no tree.
fn words(value: &ValueRecord) -> &[u8]
    ensures { result.now ≡ value_words (seen_value value.now) }
{
    match value {
        ValueRecord::Struct(words) => words.as_slice(),
        ValueRecord::List(words) => words.as_slice(),
        ValueRecord::AnyPointer(words) => words.as_slice(),
        _ => &[],
    }
}

/// Whether defaults are of one kind, with equal numbers, bytes or trees.
#[tactic(auto, using(crate::proofs::DefaultKinds::by_tree, crate::proofs::DefaultKinds::by_value, crate::proofs::DefaultKinds::by_kind))]
fn are_same_default(one: &ValueRecord, other: &ValueRecord) -> bool
    ensures { IsTrue result ↔ SameDefault (seen_value one.now) (seen_value other.now) }
{
    let kind = tree_kind(one);
    if kind == 0 {
        return are_equal(one, other);
    }
    if kind != tree_kind(other) {
        return false;
    }
    have_same_tree(words(one), words(other))
}

/// Whether the defaults of two slots are the same. Groups have none.
pub(crate) fn are_same_defaults(one: &FieldKind, other: &FieldKind) -> bool
    ensures { IsTrue result ↔ SameDefaults (seen_kind one.now) (seen_kind other.now) }
{
    match one {
        FieldKind::Slot { offset: _, default } => match other {
            FieldKind::Slot {
                offset: _,
                default: other_default,
            } => are_same_default(default, other_default),
            FieldKind::Group { .. } => true,
        },
        FieldKind::Group { .. } => true,
    }
}
