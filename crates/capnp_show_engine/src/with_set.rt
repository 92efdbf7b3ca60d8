//! Messages that are shown under a struct of a set that comes as a message itself.
ghost use Rattle.std.specs.Prelude.{[], ◌∷◌, ◌≡◌, ◌≢◌, ◌<◌, ◌⊎◌, ⊤, IfErr, IfSome, OnOk, length};
ghost use Rattle.capnp_device.specs.Device.{HasFailed};
ghost use Rattle.capnp_device.specs.declared.error.ErrorKind.TheVariants.{ReadFailed, WriteFailed};
ghost use Rattle.capnp_schema.specs.ByName.{brand_asked};
ghost use Rattle.capnp_schema.specs.Entries.{lists_seen};
ghost use Rattle.capnp_show_engine.specs.Opened.{AsksAmong, IsNotOpened, IsFileOpened};
ghost use Rattle.capnp_show_engine.specs.Show.{IsTextCutShort, IsOfMessage, IsShown};
ghost use Rattle.capnp_show_engine.specs.WithSet.{HasReadFailed, IsRefusedWithSet, IsStructNamed};

use crate::engine::show;
use crate::opener::Opener;
use capnp_base::introspect::RawBrandedStructSchema;
use capnp_schema::set::SchemaSet;
use capnp_sets::message::read_message;
use capnp_wire::device::{Sink, Source};
use capnp_wire::error::{Error, ErrorKind, Result};
use capnp_wire::transfer::read_all;
use std::alloc::Global;

/// The number of the struct of a display name.
fn find_struct_number(schemas: &SchemaSet, name: &str) -> Option<u32>
    ensures found { result ≡ brand_asked (lists_seen schemas.now) name.now }
    ensures inside { IfSome result (λ b. b < length (lists_seen schemas.now).brands) }
{
    let schema = schemas.find_struct(name)?;
    Some(RawBrandedStructSchema::from(schema).number)
}

/// Shows a message under a struct of a set that comes as a message: reads the set's source to its end, checks the set,
/// finds the struct of that display name, and only then reads the message's source, as `show`. Of both sources what
/// follows the first message is not looked at.
///
/// Refused with `ReadFailed` or `WriteFailed` where a call of a source or the sink failed, with `OutOfMemory`, as
/// `capnp_sets::message::read_message` refuses the set, with `NameNotFound` where it has no struct of that name, and
/// then as `show`. After a refusal of the set or the name nothing of the message was read. After `WriteFailed` a proper
/// beginning of the text and its line break was written, after any other refusal nothing.
pub fn show_with_set<S: Source, R: Source, W: Sink>(
    alloc: Global,
    set_source: &mut S,
    name: &str,
    source: &mut R,
    sink: &mut W,
    indented: bool,
) -> Result<()>
    ensures shown { OnOk result (IsStructNamed name.now (S.left set_source.old) (S.left set_source.new) (λ schemas b.
        IsShown schemas b indented (R.left source.old) (R.left source.new) (W.written sink.old) (W.written sink.new))) }
    ensures refused { IfErr result (λ e. IsOfMessage e.kind
        → IsRefusedWithSet name.now indented e (source.new ≡ source.old)
        (S.left set_source.old) (S.left set_source.new) (R.left source.old) (R.left source.new)) }
    ensures read_failed { IfErr result (λ e. e.kind ≡ ReadFailed → HasReadFailed (source.new ≡ source.old)
        (S.failures set_source.old) (S.failures set_source.new) (R.failures source.old) (R.failures source.new)) }
    ensures write_failed { IfErr result (λ e. e.kind ≡ WriteFailed →
        HasFailed (W.failures sink.old) (W.failures sink.new)) }
    ensures beginning { IfErr result (λ e. e.kind ≡ WriteFailed
        → IsStructNamed name.now (S.left set_source.old) (S.left set_source.new) (λ schemas b.
        IsTextCutShort schemas b indented (R.left source.old) (R.left source.new) (W.written sink.old) (W.written sink.new))) }
    ensures nothing { IfErr result (λ e. e.kind ≢ WriteFailed → sink.new ≡ sink.old) }
    ensures first { (source.new ≡ source.old)
        ⊎ IsStructNamed name.now (S.left set_source.old) (S.left set_source.new) (λ _ _. ⊤) }
{
    let bytes = read_all(alloc, set_source)?;
    let schemas = read_message(alloc, &bytes)?;
    let Some(brand) = find_struct_number(&schemas, name) else {
        return Err(Error::from(ErrorKind::NameNotFound));
    };
    show(alloc, &schemas, brand, source, sink, indented)
}

/// `show_with_set` under the set that a file holds: opens it, and then reads it before the message.
///
/// Refused as `show_with_set`, and with `ReadFailed` where the file can't be opened; nothing of the message was read
/// then.
pub fn show_with_file<O: Opener, R: Source, W: Sink>(
    alloc: Global,
    opener: &mut O,
    path: &str,
    name: &str,
    source: &mut R,
    sink: &mut W,
    indented: bool,
) -> Result<()>
    ensures shown { OnOk result (IsFileOpened O.opens opener.old opener.new path.now (λ f g.
        IsStructNamed name.now (O.File.left f) (O.File.left g) (λ schemas b.
        IsShown schemas b indented (R.left source.old) (R.left source.new) (W.written sink.old) (W.written sink.new)))) }
    ensures refused { IfErr result (λ e. IsOfMessage e.kind → IsFileOpened O.opens opener.old opener.new path.now (λ f g.
        IsRefusedWithSet name.now indented e (source.new ≡ source.old)
        (O.File.left f) (O.File.left g) (R.left source.old) (R.left source.new))) }
    ensures read_failed { IfErr result (λ e. e.kind ≡ ReadFailed →
        (IsNotOpened O.opens opener.old opener.new path.now × (source.new ≡ source.old))
        ⊎ IsFileOpened O.opens opener.old opener.new path.now (λ f g. HasReadFailed (source.new ≡ source.old)
        (O.File.failures f) (O.File.failures g) (R.failures source.old) (R.failures source.new))) }
    ensures write_failed { IfErr result (λ e. e.kind ≡ WriteFailed →
        HasFailed (W.failures sink.old) (W.failures sink.new)) }
    ensures beginning { IfErr result (λ e. e.kind ≡ WriteFailed
        → IsFileOpened O.opens opener.old opener.new path.now (λ f g.
        IsStructNamed name.now (O.File.left f) (O.File.left g) (λ schemas b.
        IsTextCutShort schemas b indented (R.left source.old) (R.left source.new) (W.written sink.old) (W.written sink.new)))) }
    ensures nothing { IfErr result (λ e. e.kind ≢ WriteFailed → sink.new ≡ sink.old) }
    ensures opened { AsksAmong O.opens (path.now ∷ []) opener.old opener.new }
    ensures first { (source.new ≡ source.old) ⊎ IsFileOpened O.opens opener.old opener.new path.now (λ f g.
        IsStructNamed name.now (O.File.left f) (O.File.left g) (λ _ _. ⊤)) }
{
    let Ok(mut file) = opener.open(path) else {
        return Err(Error::from(ErrorKind::ReadFailed));
    };
    show_with_set(alloc, &mut file, name, source, sink, indented)
}
