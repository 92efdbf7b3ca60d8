//! What is asked of each entry of a list, and the annotations of fields and enumerants.
ghost use Rattle.std.specs.Prelude.{◌↔◌, ◌≡◌, IsTrue, List, map};
ghost use Rattle.capnp_schema.specs.Schema.{Annotation, Enumerant, Field, seen_annotations, seen_enumerant, seen_field};
ghost use Rattle.capnp_schema.specs.Steps.Checking.Entry.{AllOrBroken};

use crate::record::{AnnotationRecord, EnumerantRecord, FieldRecord};

/// A field or an enumerant: an entry that has annotations.
pub(crate) trait Annotated {
    // What the entry is to definitions, and its annotations there.
    ghost Seen: { Type 0 };

    ghost seen: { Self → Seen };

    ghost annotations_of: { Seen → List Annotation };

    /// Its annotations.
    fn annotations(&self) -> &[AnnotationRecord]
        ensures { seen_annotations result.now ≡ annotations_of (seen self.now) };
}

impl Annotated for FieldRecord {
    ghost Seen = { Field };

    ghost seen = { seen_field };

    ghost annotations_of = { λ f. f.annotations };

    fn annotations(&self) -> &[AnnotationRecord] {
        &self.annotations
    }
}

impl Annotated for EnumerantRecord {
    ghost Seen = { Enumerant };

    ghost seen = { seen_enumerant };

    ghost annotations_of = { λ x. x.annotations };

    fn annotations(&self) -> &[AnnotationRecord] {
        &self.annotations
    }
}

/// What is asked of an entry. `Rule` tells apart the questions that are asked of one type.
pub(crate) trait Asked<Rule> {
    // What the entry is to definitions, and what is asked of that.
    ghost Seen: { Type 0 };

    ghost seen: { Self → Seen };

    ghost is_met: { Seen → Type 0 };

    /// Whether it is so of this entry.
    fn is_met(&self) -> bool
        ensures { IsTrue result ↔ is_met (seen self.now) };
}

/// The first entry of which it isn't so.
pub(crate) fn broken_entry<Rule, E: Asked<Rule>>(entries: &[E]) -> Option<usize>
    ensures { AllOrBroken (map E.seen entries.now) E.is_met result }
{
    for i in 0..entries.len() {
        if !entries[i].is_met() {
            return Some(i);
        }
    }
    None
}
