//! Where the annotation of an id stands.
ghost use Rattle.std.specs.Prelude.{◌≡◌, ◌==◌, position};

use crate::record::AnnotationRecord;

/// The index of the first annotation of an id.
pub(crate) fn position_of(stored: &[AnnotationRecord], id: u64) -> Option<usize>
    ensures { result ≡ position (λ x. x.id == id) stored.now }
{
    stored.iter().position(|annotation| annotation.id == id)
}
