//! Defaults that are copied into a null: of a text where `is_text`, and else of data.
ghost use Rattle.std.specs.Prelude.{None, IfErr, IfOk, IsOk, OnErr, OnOk, length, ◌≡◌};
ghost use Rattle.capnp_wire.specs.Edits.{IsDueRefusal};
ghost use Rattle.capnp_wire.specs.Standing.{bytes_read, tree_of};
ghost use Rattle.capnp_base.specs.Traits.{IsDefaultRefusal, IsReadRefusal, default_refusal, refusal_in, tree_or};
ghost use Rattle.capnp_arena.specs.Frame.{LeavesPointer};
ghost use Rattle.capnp_arena.specs.Forest.{Forest, tree};
ghost use Rattle.capnp_arena.specs.Segment.{segment};
ghost use Rattle.capnp_builders.specs.Blobs.{bytes_in};
ghost use Rattle.capnp_builders.specs.Steps.Blobs.{as_blob};
ghost use Rattle.capnp_builders.specs.Steps.Defaults.{default_taken};

use capnp_arena::arena::Arena;
use capnp_wire::PointerReader;
use capnp_wire::error::Result;

/// The default that stands in for what is at a pointer: where one is given, and the pointer is null.
fn take_default<'d>(
    arena: &Arena,
    at: usize,
    default: Option<PointerReader<'d>>,
) -> Option<PointerReader<'d>>
    requires { Forest (segment arena.now) at }
    ensures { result ≡ default_taken (tree (segment arena.now) at) default.entry }
{
    let reader = default?;
    if arena.is_null(at) {
        Some(reader)
    } else {
        None
    }
}

/// The bytes of a default.
fn default_bytes(default: PointerReader<'_>, is_text: bool) -> Result<&[u8]>
    ensures { bytes_read result ≡ as_blob is_text (tree_of default.entry) }
{
    if is_text {
        default.get_text()
    } else {
        default.get_data()
    }
}

/// The bytes at a pointer.
fn bytes_at(arena: &Arena, at: usize, is_text: bool) -> Result<&[u8]>
    requires { Forest (segment arena.now) at }
    ensures { bytes_read result ≡ as_blob is_text (tree (segment arena.now) at) }
{
    if is_text {
        arena.get_text(at)
    } else {
        arena.get_data(at)
    }
}

/// Makes a pointer one to a copy of a default, and answers how many bytes it has.
///
/// Refused as its read, and else with `OutOfMemory`; then nothing has changed.
fn put_default(
    arena: &mut Arena,
    at: usize,
    default: PointerReader<'_>,
    is_text: bool,
) -> Result<usize>
    requires { Forest (segment arena.old) at }
    ensures frame { OnOk result (LeavesPointer at arena.old arena.new) }
    ensures tree { OnOk result (tree (segment arena.new) at ≡ tree_of default.entry) }
    ensures reads { OnOk result (refusal_in (as_blob is_text (tree_of default.entry)) ≡ None) }
    ensures bytes { OnOk result (IsOk (as_blob is_text (tree_of default.entry))) }
    ensures count { IfOk result (λ n. n ≡ length (bytes_in (as_blob is_text (tree_of default.entry)))) }
    ensures refused { OnErr result (segment arena.new ≡ segment arena.old) }
    ensures cause { IfErr result (λ error. IsDueRefusal error (refusal_in (as_blob is_text (tree_of default.entry)))) }
{
    let count = default_bytes(default, is_text)?.len();
    arena.copy_from(at, default)?;
    Ok(count)
}

/// Copies a default into a null; else nothing changes.
#[tactic(auto, using(crate::proofs::Taken::own_tree, crate::proofs::Taken::own_refusal, crate::proofs::Taken::other_tree, crate::proofs::Taken::other_refusal, crate::proofs::Taken::refused_default, crate::proofs::Taken::no_change))]
pub(crate) fn fill(
    arena: &mut Arena,
    at: usize,
    default: Option<PointerReader<'_>>,
    is_text: bool,
) -> Result<()>
    requires { Forest (segment arena.old) at }
    ensures frame { OnOk result (LeavesPointer at arena.old arena.new) }
    ensures tree { OnOk result (tree (segment arena.new) at ≡ tree_or (tree (segment arena.old) at) default.entry) }
    ensures reads { OnOk result (default_refusal (as_blob is_text) (tree (segment arena.old) at) default.entry ≡ None) }
    ensures refused { OnErr result (segment arena.new ≡ segment arena.old) }
    ensures cause { IfErr result (IsDefaultRefusal (as_blob is_text) (tree (segment arena.old) at) default.entry) }
{
    let Some(other) = take_default(arena, at, default) else {
        return Ok(());
    };
    match put_default(arena, at, other, is_text) {
        Ok(_count) => Ok(()),
        Err(error) => Err(error),
    }
}

/// Enters the bytes at a pointer, and answers how many there are. A null becomes a copy of the default first.
#[tactic(auto, using(crate::proofs::Taken::own_tree, crate::proofs::Taken::other_tree, crate::proofs::Taken::refused_as_read, crate::proofs::Taken::refused_as_default, crate::proofs::Taken::no_change))]
pub(crate) fn enter(
    arena: &mut Arena,
    at: usize,
    default: Option<PointerReader<'_>>,
    is_text: bool,
) -> Result<usize>
    requires { Forest (segment arena.old) at }
    ensures frame { OnOk result (LeavesPointer at arena.old arena.new) }
    ensures tree { OnOk result (tree (segment arena.new) at ≡ tree_or (tree (segment arena.old) at) default.entry) }
    ensures bytes { OnOk result (IsOk (as_blob is_text (tree_or (tree (segment arena.old) at) default.entry))) }
    ensures count { IfOk result (λ n. n ≡ length
        (bytes_in (as_blob is_text (tree_or (tree (segment arena.old) at) default.entry)))) }
    ensures refused { OnErr result (segment arena.new ≡ segment arena.old) }
    ensures cause { IfErr result (IsReadRefusal (as_blob is_text) (tree (segment arena.old) at) default.entry) }
{
    match take_default(arena, at, default) {
        Some(other) => {
            let count = put_default(arena, at, other, is_text)?;
            Ok(count)
        }
        None => {
            let count = bytes_at(arena, at, is_text)?.len();
            Ok(count)
        }
    }
}
