//! A set of schemas that is written in the program; a message that is built under it by calls along paths, printed and
//! patched; and what a program with an older schema reads of the patched message.
#![tactic(auto)]

ghost use Rattle.std.specs.Prelude.{◌≡◌, IfOk};
ghost use Rattle.capnp_schema.specs.Entries.{lists_seen};
ghost use Rattle.capnp_schema.specs.StructHandles.{IsStruct, set_of};

use capnp::compatible::Compatible;
use capnp::device::{WriteSink, write_all};
use capnp::dynamic_value::Reader as Value;
use capnp::introspect::{Type, TypeVariant};
use capnp::message::Reader;
use capnp::printer::{print, print_within};
use capnp::run::{Call, Op, Step, any_refused, whole_copied, whole_new};
use capnp::schema::record::{BrandRecord, FieldRecord, NodeRecord, ValueRecord};
use capnp::schema::{SchemaSet, StructSchema};
use capnp::{Error, ErrorKind, Result, dynamic_struct, text};
use std::alloc::Global;

/// Two versions of an account: the older one has a name, the newer one also a balance.
fn schemas(alloc: Global) -> Result<SchemaSet> {
    let none = ValueRecord::Text(Vec::new(alloc));
    let name = FieldRecord::slot(alloc, "name", 0, none)?;
    let older = NodeRecord::structure(alloc, 1, "OldAccount", 0, 1, vec![in alloc; name]?)?;
    let none = ValueRecord::Text(Vec::new(alloc));
    let name = FieldRecord::slot(alloc, "name", 0, none)?;
    let balance = FieldRecord::slot(alloc, "balance", 0, ValueRecord::Int64(0))?;
    let newer = NodeRecord::structure(alloc, 1, "Account", 1, 1, vec![in alloc; name, balance]?)?;
    let text = Type::from(TypeVariant::Text);
    let integer = Type::from(TypeVariant::Int64);
    let older_brand = BrandRecord::new(alloc, 0, vec![in alloc; text]?)?;
    let newer_brand = BrandRecord::new(alloc, 1, vec![in alloc; text, integer]?)?;
    SchemaSet::new(
        alloc,
        vec![in alloc; older, newer]?,
        vec![in alloc; older_brand, newer_brand]?,
        Vec::new(alloc),
    )
}

/// A call on a field of the root.
fn on_field<'c>(name: &'c str, op: Op<'c>) -> Call<'c> {
    Call {
        path: &[],
        last: Step::Named(name),
        op,
    }
}

/// The struct of a name. Refused with `NameNotFound` where the set has none.
fn struct_named<'s>(schemas: &'s SchemaSet, name: &str) -> Result<StructSchema<'s>>
    ensures { IfOk result (λ s. IsStruct s × (set_of s ≡ lists_seen schemas.now)) }
{
    match schemas.find_struct(name) {
        Some(schema) => Ok(schema),
        None => Err(Error::from(ErrorKind::NameNotFound)),
    }
}

/// The message of an account that is built by calls, and its text. A call that is refused doesn't end the others, so the
/// replies are looked at: here one would be for a value of another kind.
fn build(alloc: Global, account: StructSchema<'_>, out: &mut String) -> Result<Vec<u8>>
    requires { IsStruct account }
{
    let name = text::Reader("Alice".as_bytes());
    let calls = [
        on_field("name", Op::Set(Value::Text(name))),
        on_field("balance", Op::Set(Value::Int64(12))),
    ];
    let (replies, bytes) = whole_new(alloc, account, &calls, out, false)?;
    if any_refused(&replies) {
        return Err(Error::type_mismatch());
    }
    Ok(bytes)
}

/// A copy of the message with another balance, and its text.
fn patch(
    alloc: Global,
    account: StructSchema<'_>,
    message: &[u8],
    out: &mut String,
) -> Result<Vec<u8>>
    requires { IsStruct account }
{
    let source = Reader::new(alloc, message)?.get_root();
    let calls = [on_field("balance", Op::Set(Value::Int64(20)))];
    let (replies, bytes) = whole_copied(alloc, source, account, &calls, out, false)?;
    if any_refused(&replies) {
        return Err(Error::type_mismatch());
    }
    Ok(bytes)
}

/// What a program that knows the older schema reads of a message of the newer one.
fn read_as_older(
    alloc: Global,
    schemas: &SchemaSet,
    message: &[u8],
    out: &mut String,
) -> Result<()> {
    let older = struct_named(schemas, "OldAccount")?;
    let newer = struct_named(schemas, "Account")?;
    let Some(pair) = Compatible::check(alloc, older, newer)? else {
        return Err(Error::type_mismatch());
    };
    let root = Reader::new(alloc, message)?.get_root().get_struct()?;
    let seen = pair.narrow(dynamic_struct::Reader::new(root, newer));
    print(Value::Struct(seen), out, false)
}

/// What such a program reads of a message that may come from anywhere: a text that has more bytes than these is refused.
fn read_shortly(
    alloc: Global,
    schemas: &SchemaSet,
    message: &[u8],
    out: &mut String,
) -> Result<()> {
    let older = struct_named(schemas, "OldAccount")?;
    let newer = struct_named(schemas, "Account")?;
    let Some(pair) = Compatible::check(alloc, older, newer)? else {
        return Err(Error::type_mismatch());
    };
    let root = Reader::new(alloc, message)?.get_root().get_struct()?;
    let seen = pair.narrow(dynamic_struct::Reader::new(root, newer));
    print_within(Value::Struct(seen), out, false, 1000)
}

/// The four texts, each on a line.
fn run(alloc: Global) -> Result<String> {
    let schemas = schemas(alloc)?;
    let account = struct_named(&schemas, "Account")?;
    let mut out = String::new(alloc);
    let built = build(alloc, account, &mut out)?;
    out.push('\n')?;
    let patched = patch(alloc, account, &built, &mut out)?;
    out.push('\n')?;
    read_as_older(alloc, &schemas, &patched, &mut out)?;
    out.push('\n')?;
    read_shortly(alloc, &schemas, &patched, &mut out)?;
    out.push('\n')?;
    Ok(out)
}

fn main(rt: HostRuntime) -> Result<()> {
    let lines = run(rt.alloc())?;
    write_all(&mut WriteSink::new(rt.stdout()), lines.as_bytes())
}
