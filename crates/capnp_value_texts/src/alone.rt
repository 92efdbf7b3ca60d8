//! What a text says as the one item of lists within one another.
ghost use Rattle.std.specs.Prelude.{◌≡◌, IfErr, IfOk};
ghost use Rattle.capnp_value_texts.specs.Calls.{alone, alone_within, place_written};
ghost use Rattle.capnp_value_texts.specs.Seen.{shown_view};
ghost use Rattle.capnp_value_texts.specs.declared.error.Error.TheVariants.{OutOfMemory};

use crate::error::Error;
use crate::parts::Name;
use crate::shown::Shown;
use std::alloc::Global;

/// The place of its first byte.
fn place_of_shown(shown: &Shown<'_>) -> usize
    ensures { result ≡ place_written (shown_view shown.now) }
{
    match shown {
        Shown::Leaf(place, _) => *place,
        Shown::Fields(place, _) => *place,
        Shown::Items(place, _) => *place,
    }
}

/// A list of one item. Refused with `OutOfMemory` alone.
fn put_alone<'t>(alloc: Global, shown: Shown<'t>) -> Result<Shown<'t>, Error>
    ensures alone { IfOk result (λ s. shown_view s ≡ alone (shown_view shown.entry)) }
    ensures memory { IfErr result (λ e. e ≡ OutOfMemory) }
{
    let place = place_of_shown(&shown);
    let bytes: &[u8] = &[];
    let mut parts = Vec::new(alloc);
    if parts.push((Name { place, bytes }, shown)).is_err() {
        return Err(Error::OutOfMemory);
    }
    Ok(Shown::Items(place, parts))
}

/// So many lists, one within another, of which the innermost has this item, at its place. Refused with `OutOfMemory` alone.
pub(crate) fn put_within<'t>(
    alloc: Global,
    depth: usize,
    shown: Shown<'t>,
) -> Result<Shown<'t>, Error>
    ensures within { IfOk result (λ s. shown_view s ≡ alone_within depth (shown_view shown.entry)) }
    ensures memory { IfErr result (λ e. e ≡ OutOfMemory) }
{
    let mut now = shown;
    for _ in 0..depth {
        now = match put_alone(alloc, now) {
            Ok(list) => list,
            Err(error) => return Err(error),
        };
    }
    Ok(now)
}
