//! Objects and arrays that are opened: what they hold, or why they are refused.
ghost use Rattle.std.specs.Prelude.{ℕ, Bool, ◌≡◌, ◌-◌, ◌≤◌, length, IfErr, IfOk};
ghost use Rattle.std.specs.Option.{option_map};
ghost use Rattle.capnp_schema.specs.Types.{ListType, SchemaType, StructType};
ghost use Rattle.capnp_json_text.specs.Values.{following_item, json_at, member_value, most_items};
ghost use Rattle.capnp_json_fields.specs.declared.fields.DataForm.{DataForm};
ghost use Rattle.capnp_from_json.specs.Errors.{IsErrorOf};
ghost use Rattle.capnp_from_json.specs.Leaves.{OfElement, OfGroup, OfSlot, Part};
ghost use Rattle.capnp_from_json.specs.LeafReads.{under};
ghost use Rattle.capnp_from_json.specs.Records.{Rules, all_levels, as_group, as_struct, root_of_json, value_of_json};
ghost use Rattle.capnp_from_json.specs.declared.error.Error.TheVariants.{OutOfMemory, Refused};
ghost use Rattle.capnp_from_json.specs.declared.error.RefusalKind.TheVariants.{TooDeep, WrongJsonKind};
ghost use Rattle.capnp_json_messages.specs.Opened.{IsOpenedWithin, list_opened, record_opened, struct_opened};

use capnp_from_json::elements::following_item;
use capnp_from_json::error::{Error, RefusalKind};
use capnp_from_json::held::{Held, held_array, held_object};
use capnp_from_json::reading::{Reading, refused};
use capnp_json_text::values::skip_name;

/// What stands behind a pointer.
#[derive(Clone, Copy)]
pub enum Opened<'a> {
    Null,
    /// What an object or array holds, from the first name or element on.
    Items(Option<&'a [u8]>),
}

/// The refusal of a value of a kind that its type does not take.
fn wrong_kind(reading: Reading, bytes: &[u8]) -> Error
    ensures { result ≡ Refused (record { kind = WrongJsonKind; place = reading.whole - length bytes.now }) }
{
    refused(RefusalKind::WrongJsonKind, reading.place_of(bytes))
}

/// The refusal of a struct or list with no level left.
fn too_deep(reading: Reading, bytes: &[u8]) -> Error
    ensures { result ≡ Refused (record { kind = TooDeep; place = reading.whole - length bytes.now }) }
{
    refused(RefusalKind::TooDeep, reading.place_of(bytes))
}

/// What the object of a group holds, from the first name on. A group takes no level.
///
/// Refused with `OutOfMemory`, and with `WrongJsonKind` for what is no object.
pub fn open_group(reading: Reading, bytes: &[u8]) -> Result<Option<&[u8]>, Error>
    ensures read { (rules : Rules) (levels b g : ℕ) (is_float : Bool) (form : DataForm) →
        IfOk result (λ first. value_of_json rules (json_at reading.whole bytes.now) levels (under (StructType b g) OfGroup is_float form)
        ≡ as_group (record_opened rules reading.whole levels b (option_map (λ x. x.now) first))) }
    ensures refused { (rules : Rules) (levels b g : ℕ) (is_float : Bool) (form : DataForm) →
        IfErr result (λ e. IsErrorOf (value_of_json rules (json_at reading.whole bytes.now) levels
        (under (StructType b g) OfGroup is_float form)) e) }
    ensures within { IfOk result (λ first. most_items (option_map (λ x. x.now) first) ≤ length bytes.now) }
{
    let held = match held_object(reading.alloc, bytes) {
        Ok(held) => held,
        Err(_memory) => return Err(Error::OutOfMemory),
    };
    match held {
        Held::Null => Err(wrong_kind(reading, bytes)),
        Held::Items(first) => Ok(first),
        Held::Other => Err(wrong_kind(reading, bytes)),
    }
}

/// What the object of a message's root holds, from the first name on.
///
/// Refused with `OutOfMemory`, and with `WrongJsonKind` for what is no object.
pub fn open_root(reading: Reading, bytes: &[u8]) -> Result<Option<&[u8]>, Error>
    ensures read { (rules : Rules) (b : ℕ) →
        IfOk result (λ first. root_of_json rules b (json_at reading.whole bytes.now)
        ≡ record_opened rules reading.whole (all_levels - 1) b (option_map (λ x. x.now) first)) }
    ensures refused { (rules : Rules) (b : ℕ) →
        IfErr result (λ e. IsErrorOf (root_of_json rules b (json_at reading.whole bytes.now)) e) }
{
    let held = match held_object(reading.alloc, bytes) {
        Ok(held) => held,
        Err(_memory) => return Err(Error::OutOfMemory),
    };
    match held {
        Held::Null => Err(wrong_kind(reading, bytes)),
        Held::Items(first) => Ok(first),
        Held::Other => Err(wrong_kind(reading, bytes)),
    }
}

/// What the object of a struct in a list holds, from the first name on, where so many levels are left.
///
/// Refused with `OutOfMemory`; with `WrongJsonKind` for what is no object; and with `TooDeep` where no level is left.
pub fn open_element(reading: Reading, levels: u32, bytes: &[u8]) -> Result<Option<&[u8]>, Error>
    ensures read { (rules : Rules) (b g : ℕ) (is_float : Bool) (form : DataForm) →
        IfOk result (λ first. value_of_json rules (json_at reading.whole bytes.now) levels (under (StructType b g) OfElement is_float form)
        ≡ as_struct (record_opened rules reading.whole (levels - 1) b (option_map (λ x. x.now) first))) }
    ensures refused { (rules : Rules) (b g : ℕ) (is_float : Bool) (form : DataForm) →
        IfErr result (λ e. IsErrorOf (value_of_json rules (json_at reading.whole bytes.now) levels
        (under (StructType b g) OfElement is_float form)) e) }
    ensures within { IfOk result (λ first. most_items (option_map (λ x. x.now) first) ≤ length bytes.now) }
{
    let held = match held_object(reading.alloc, bytes) {
        Ok(held) => held,
        Err(_memory) => return Err(Error::OutOfMemory),
    };
    match held {
        Held::Null => Err(wrong_kind(reading, bytes)),
        Held::Items(first) => {
            if levels == 0 {
                return Err(too_deep(reading, bytes));
            }
            Ok(first)
        }
        Held::Other => Err(wrong_kind(reading, bytes)),
    }
}

/// What stands behind the pointer of a struct, where so many levels are left.
///
/// Refused with `OutOfMemory`; with `WrongJsonKind` for what is no object and not null; and with `TooDeep` where no level
/// is left for an object.
pub fn open_struct(reading: Reading, levels: u32, bytes: &[u8]) -> Result<Opened<'_>, Error>
    ensures read { (rules : Rules) (b g : ℕ) (is_float : Bool) (form : DataForm) →
        IfOk result (λ o. value_of_json rules (json_at reading.whole bytes.now) levels (under (StructType b g) OfSlot is_float form)
        ≡ struct_opened rules reading.whole levels b o) }
    ensures refused { (rules : Rules) (b g : ℕ) (is_float : Bool) (form : DataForm) →
        IfErr result (λ e. IsErrorOf (value_of_json rules (json_at reading.whole bytes.now) levels
        (under (StructType b g) OfSlot is_float form)) e) }
    ensures within { IfOk result (λ o. IsOpenedWithin o bytes.now) }
{
    let held = match held_object(reading.alloc, bytes) {
        Ok(held) => held,
        Err(_memory) => return Err(Error::OutOfMemory),
    };
    match held {
        Held::Null => Ok(Opened::Null),
        Held::Items(first) => {
            if levels == 0 {
                return Err(too_deep(reading, bytes));
            }
            Ok(Opened::Items(first))
        }
        Held::Other => Err(wrong_kind(reading, bytes)),
    }
}

/// What stands behind the pointer of a list, where so many levels are left.
///
/// Refused with `OutOfMemory`; with `WrongJsonKind` for what is no array and not null; and with `TooDeep` where no level is
/// left for an array.
pub fn open_list(reading: Reading, levels: u32, bytes: &[u8]) -> Result<Opened<'_>, Error>
    ensures read { (rules : Rules) (element : SchemaType) (part : Part) (is_float : Bool) (form : DataForm) →
        IfOk result (λ o. value_of_json rules (json_at reading.whole bytes.now) levels (under (ListType element) part is_float form)
        ≡ list_opened rules reading.whole (reading.whole - length bytes.now) levels element is_float o) }
    ensures refused { (rules : Rules) (element : SchemaType) (part : Part) (is_float : Bool) (form : DataForm) →
        IfErr result (λ e. IsErrorOf (value_of_json rules (json_at reading.whole bytes.now) levels
        (under (ListType element) part is_float form)) e) }
    ensures within { IfOk result (λ o. IsOpenedWithin o bytes.now) }
{
    let held = match held_array(reading.alloc, bytes) {
        Ok(held) => held,
        Err(_memory) => return Err(Error::OutOfMemory),
    };
    match held {
        Held::Null => Ok(Opened::Null),
        Held::Items(first) => {
            if levels == 0 {
                return Err(too_deep(reading, bytes));
            }
            Ok(Opened::Items(first))
        }
        Held::Other => Err(wrong_kind(reading, bytes)),
    }
}

/// The bytes of a member's value, from its name on.
pub fn value_behind(bytes: &[u8]) -> &[u8]
    ensures value { result.now ≡ member_value bytes.now }
    ensures shorter { length result.now ≤ length bytes.now }
{
    match skip_name(bytes) {
        Ok(rest) => rest,
        Err(_fault) => &bytes[bytes.len()..],
    }
}

/// Where the next element or name begins, from the value on that stands before it. None at the closing bracket.
///
/// Refused with `OutOfMemory` alone.
pub fn item_behind(reading: Reading, bytes: &[u8]) -> Result<Option<&[u8]>, Error>
    ensures next { IfOk result (λ next. option_map (λ x. x.now) next ≡ following_item bytes.now) }
    ensures fewer { IfOk result (λ next. most_items (option_map (λ x. x.now) next) ≤ length bytes.now) }
    ensures memory { IfErr result (λ e. e ≡ OutOfMemory) }
{
    match following_item(reading.alloc, bytes) {
        Ok(next) => Ok(next),
        Err(_memory) => Err(Error::OutOfMemory),
    }
}
