//! The paths that a pattern stands for: of a path with steps `*`, those that lead to what is there.
ghost use Rattle.std.specs.Prelude.{[], ◌∷◌, ◌+◌, ◌++◌, ◌≡◌, IfErr, IfOk, IfSome, MatchOption, length, ℕ};
ghost use Rattle.capnp_call.specs.Seen.{path_seen, step_seen};
ghost use Rattle.capnp_device.specs.declared.error.ErrorKind.TheVariants.{OutOfMemory};
ghost use Rattle.capnp_dynamic_readers.specs.Shown.{type_seen};
ghost use Rattle.capnp_dynamic_readers.specs.Typed.{IsOf};
ghost use Rattle.capnp_dynamic_readers.specs.declared.dynamic_value.Reader.TheVariants.{List as ListOf, Struct as StructOf};
ghost use Rattle.capnp_patch.specs.Gets.{is_empty, value_part_seen};
ghost use Rattle.capnp_queries.specs.Patterns.{is_each, is_left_out, is_pattern, listed, listing, listing_at, step_listing, stopped};
ghost use Rattle.capnp_queries.specs.Steps.Listings.{each_listing};
ghost use Rattle.capnp_queries.specs.PatternsSeen.{IsListed, IsNotListed, paths_seen};
ghost use Rattle.capnp_schema.specs.Schema.{Schemas};
ghost use Rattle.capnp_schema.specs.StructHandles.{IsStruct, number_of, set_of};

use crate::reach::read_root;
use capnp_call::calls::Step;
use capnp_dynamic_readers::dynamic_value::Reader as Value;
use capnp_dynamic_readers::{dynamic_list, dynamic_struct};
use capnp_patch::reach::{get_within, read_step};
use capnp_schema::schema::StructSchema;
use capnp_wire::error::{ErrorKind, Result};
use std::alloc::Global;

/// A path whose last step is refused; of a message that is refused, or its root, no steps.
#[derive(Drop)]
pub struct RefusedPath<'a> {
    pub steps: Vec<Step<'a>>,
    pub kind: ErrorKind,
    /// The schema of the struct or group that the step is done at, if it is one.
    pub within: Option<StructSchema<'a>>,
}

/// Why the paths of a pattern aren't listed.
#[derive(Drop)]
pub enum NotListed<'a> {
    /// The message, its root or a step is refused.
    Refused(RefusedPath<'a>),
    /// There are more paths than may be, with `TooLarge`; or there is no memory for them, with `OutOfMemory`.
    Unmade(ErrorKind),
}

/// Paths, or why they aren't listed.
pub type Listed<'a> = std::result::Result<Vec<Vec<Step<'a>>>, NotListed<'a>>;

/// Whether a step stands for each element or field.
pub fn is_each(step: Step<'_>) -> bool
    ensures { result ≡ is_each (step_seen step.entry) }
{
    match step {
        Step::Named(name) => name == "*",
        Step::Field(_) | Step::Element(_) => false,
    }
}

/// Whether a path has such a step.
pub fn is_pattern(path: &[Step<'_>]) -> bool
    ensures { result ≡ is_pattern (path_seen path.now) }
{
    for step in path {
        if is_each(*step) {
            return true;
        }
    }
    false
}

/// The first step of a pattern, and those behind it; none where it has none.
fn split_steps<'p, 'a>(pattern: &'p [Step<'a>]) -> Option<(Step<'a>, &'p [Step<'a>])>
    ensures steps { MatchOption result (path_seen pattern.now ≡ [])
        (λ x. path_seen pattern.now ≡ step_seen x.0 ∷ path_seen x.1.now) }
    ensures shorter { IfSome result (λ x. length x.1.now + 1 ≡ length pattern.now) }
{
    match pattern {
        [] => None,
        [first, rest @ ..] => Some((*first, rest)),
    }
}

/// Whether no steps follow.
fn is_last(rest: &[Step<'_>]) -> bool
    ensures { result ≡ is_empty (path_seen rest.now) }
{
    match rest {
        [] => true,
        [_, ..] => false,
    }
}

/// Whether a read behind a `*` that is refused so is of a member that isn't set.
fn is_left_out(behind: bool, kind: ErrorKind) -> bool
    ensures { result ≡ is_left_out behind kind }
{
    behind && kind == ErrorKind::InactiveMember
}

/// A path with a step more. Refused with `OutOfMemory` alone.
fn extend_path<'a>(alloc: Global, here: &[Step<'a>], step: Step<'a>) -> Result<Vec<Step<'a>>>
    ensures path { IfOk result (λ path. path_seen path.items ≡ path_seen here.now ++ step_seen step.entry ∷ []) }
    ensures memory { IfErr result (λ e. e.kind ≡ OutOfMemory) }
{
    let mut path = Vec::with_capacity(alloc, here.len() + 1)?;
    path.extend_from_slice(here)?;
    path.push(step)?;
    Ok(path)
}

/// A copy of a path. Refused with `OutOfMemory` alone.
fn copy_path<'a>(alloc: Global, here: &[Step<'a>]) -> Result<Vec<Step<'a>>>
    ensures path { IfOk result (λ path. path_seen path.items ≡ path_seen here.now) }
    ensures memory { IfErr result (λ e. e.kind ≡ OutOfMemory) }
{
    let mut path = Vec::with_capacity(alloc, here.len())?;
    path.extend_from_slice(here)?;
    Ok(path)
}

/// Paths with one more. Refused with `TooLarge` where there are as many as may be, and with `OutOfMemory`.
fn add_path<'a>(paths: Vec<Vec<Step<'a>>>, here: Vec<Step<'a>>, most: u64) -> Listed<'a>
    ensures { (schemas : Schemas) → IsListed most (paths_seen paths.entry.items) schemas
        (listed (path_seen here.entry.items ∷ [])) result }
{
    if paths.len() as u64 >= most {
        return Err(NotListed::Unmade(ErrorKind::TooLarge));
    }
    let mut paths = paths;
    match paths.push(here) {
        Ok(()) => Ok(paths),
        Err(_) => Err(NotListed::Unmade(ErrorKind::OutOfMemory)),
    }
}

/// The refusal of a step at the end of a path.
fn refuse_step<'a>(
    alloc: Global,
    value: Value<'a>,
    here: &[Step<'a>],
    step: Step<'a>,
    kind: ErrorKind,
) -> NotListed<'a>
    ensures { (schemas : Schemas) → IsOf schemas (type_seen value.entry) value.entry → (most before : ℕ)
        → IsNotListed most before schemas (stopped (path_seen here.now ++ step_seen step.entry ∷ []) kind
        (type_seen value.entry)) result }
{
    match extend_path(alloc, here, step) {
        Ok(steps) => NotListed::Refused(RefusedPath {
            steps,
            kind,
            within: get_within(value),
        }),
        Err(error) => NotListed::Unmade(error.kind),
    }
}

/// The refusal of a `*` behind a path: what stands there has neither elements nor fields.
fn refuse_each<'a>(
    alloc: Global,
    value: Value<'a>,
    here: &[Step<'a>],
    kind: ErrorKind,
) -> NotListed<'a>
    ensures { (schemas : Schemas) → IsOf schemas (type_seen value.entry) value.entry → (most before : ℕ)
        → IsNotListed most before schemas (stopped (path_seen here.now) kind (type_seen value.entry)) result }
{
    match copy_path(alloc, here) {
        Ok(steps) => NotListed::Refused(RefusedPath {
            steps,
            kind,
            within: get_within(value),
        }),
        Err(error) => NotListed::Unmade(error.kind),
    }
}

/// The paths of a pattern from a value, which stands at the end of a path, behind others. Where `behind`, a `*` is on the
/// way there.
#[cycle(list)]
fn list_from<'a>(
    value: Value<'a>,
    pattern: &[Step<'a>],
    behind: bool,
    here: Vec<Step<'a>>,
    paths: Vec<Vec<Step<'a>>>,
    most: u64,
) -> Listed<'a>
    ensures { (schemas : Schemas) → IsOf schemas (type_seen value.entry) value.entry
        → IsListed most (paths_seen paths.entry.items) schemas (listing schemas behind (path_seen pattern.now)
        (path_seen here.entry.items) (value_part_seen value.entry)) result }
{
    match split_steps(pattern) {
        None => add_path(paths, here, most),
        Some((step, rest)) => {
            if is_each(step) {
                list_each(value, rest, here.as_slice(), paths, most)
            } else {
                list_step(value, step, rest, behind, here.as_slice(), paths, most)
            }
        }
    }
}

/// Those of a step from the value and of a pattern behind it.
#[cycle(list)]
fn list_step<'a>(
    value: Value<'a>,
    step: Step<'a>,
    rest: &[Step<'a>],
    behind: bool,
    here: &[Step<'a>],
    paths: Vec<Vec<Step<'a>>>,
    most: u64,
) -> Listed<'a>
    ensures { (schemas : Schemas) → IsOf schemas (type_seen value.entry) value.entry
        → IsListed most (paths_seen paths.entry.items) schemas (step_listing schemas
        (listing schemas behind (path_seen rest.now)) behind (is_empty (path_seen rest.now)) (path_seen here.now)
        (value_part_seen value.entry) (step_seen step.entry)) result }
{
    let alloc = *paths.allocator();
    match read_step(value, step, is_last(rest)) {
        Ok(next) => match extend_path(alloc, here, step) {
            Ok(there) => list_from(next, &*rest, behind, there, paths, most),
            Err(error) => Err(NotListed::Unmade(error.kind)),
        },
        Err(error) => {
            if is_left_out(behind, error.kind) {
                return Ok(paths);
            }
            Err(refuse_step(alloc, value, here, step, error.kind))
        }
    }
}

/// Those of a `*` from the value and of a pattern behind it.
#[cycle(list)]
fn list_each<'a>(
    value: Value<'a>,
    rest: &[Step<'a>],
    here: &[Step<'a>],
    paths: Vec<Vec<Step<'a>>>,
    most: u64,
) -> Listed<'a>
    ensures { (schemas : Schemas) → IsOf schemas (type_seen value.entry) value.entry
        → IsListed most (paths_seen paths.entry.items) schemas (each_listing schemas (path_seen rest.now)
        (path_seen here.now) (value_part_seen value.entry)) result }
{
    let alloc = *paths.allocator();
    match value {
        Value::Struct(reader) => list_fields(reader, &*rest, here, paths, most),
        Value::List(list) => list_elements(list, &*rest, here, paths, most),
        Value::AnyPointer(_) => Err(refuse_each(alloc, value, here, ErrorKind::UntypedStep)),
        _ => Err(refuse_each(alloc, value, here, ErrorKind::NotAContainer)),
    }
}

/// Those of each field of a struct or group, in the order of the schema.
#[cycle(list)]
fn list_fields<'a>(
    reader: dynamic_struct::Reader<'a>,
    rest: &[Step<'a>],
    here: &[Step<'a>],
    before: Vec<Vec<Step<'a>>>,
    most: u64,
) -> Listed<'a>
    ensures { (schemas : Schemas) → IsOf schemas (type_seen (StructOf reader.entry)) (StructOf reader.entry)
        → IsListed most (paths_seen before.entry.items) schemas (each_listing schemas (path_seen rest.now)
        (path_seen here.now) (value_part_seen (StructOf reader.entry))) result }
{
    let fields = match reader.get_schema().get_fields() {
        Ok(fields) => fields,
        Err(error) => return Err(NotListed::Unmade(error.kind)),
    };
    let mut paths = before;
    for index in 0..fields.len() {
        let step = Step::Named(fields.get(index).get_proto().name.as_str());
        match list_step(Value::Struct(reader), step, &*rest, true, here, paths, most) {
            Ok(more) => paths = more,
            Err(why) => return Err(why),
        }
    }
    Ok(paths)
}

/// Those of each element of a list.
#[cycle(list)]
fn list_elements<'a>(
    list: dynamic_list::Reader<'a>,
    rest: &[Step<'a>],
    here: &[Step<'a>],
    before: Vec<Vec<Step<'a>>>,
    most: u64,
) -> Listed<'a>
    ensures { (schemas : Schemas) → IsOf schemas (type_seen (ListOf list.entry)) (ListOf list.entry)
        → IsListed most (paths_seen before.entry.items) schemas (each_listing schemas (path_seen rest.now)
        (path_seen here.now) (value_part_seen (ListOf list.entry))) result }
{
    let mut paths = before;
    for index in 0..list.len() {
        let step = Step::Element(index);
        match list_step(Value::List(list), step, &*rest, true, here, paths, most) {
            Ok(more) => paths = more,
            Err(why) => return Err(why),
        }
    }
    Ok(paths)
}

/// The paths that a pattern stands for at the root of the first message in these bytes, in their order: a step `*` is each
/// element of a list, by its index, or each field of a struct or group, by its name, in the order of the schema. Each path
/// leads to what is there, and nulls have their defaults. Behind a `*` a member of a union that isn't set is left out.
///
/// Refused as the message is, as its root, and as the first step that is, of `capnp_patch::reach::walk_path`, with the path
/// there; with `TooLarge` where there are more than `most` paths; and with `OutOfMemory`.
///
/// # Conditions
///
/// The schema is one of an accepted set (`IsStruct`).
pub fn list_paths<'a>(
    alloc: Global,
    schema: StructSchema<'a>,
    pattern: &[Step<'a>],
    bytes: &'a [u8],
    most: u64,
) -> Listed<'a>
    requires { IsStruct schema }
    ensures listed { IsListed most [] (set_of schema.entry) (listing_at (set_of schema.entry) (number_of schema.entry)
        (path_seen pattern.now) bytes.now) result }
{
    match read_root(alloc, schema, bytes) {
        Ok(value) => list_from(
            value,
            pattern,
            false,
            Vec::new(alloc),
            Vec::new(alloc),
            most,
        ),
        Err(kind) => Err(NotListed::Refused(RefusedPath {
            steps: Vec::new(alloc),
            kind,
            within: None,
        })),
    }
}
