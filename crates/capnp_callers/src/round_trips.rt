//! What is put into a value is taken out of it again.
ghost use Rattle.std.specs.Prelude.{◌≡◌};

use capnp_base::{any_pointer, text};
use capnp_dynamic::dynamic_value::{Enum, Reader};
use capnp_dynamic::{dynamic_list, dynamic_struct};

pub fn truth_again(value: bool) -> bool
    ensures { result ≡ value }
{
    Reader::from(value).downcast()
}

pub fn int8_again(value: i8) -> i8
    ensures { result ≡ value }
{
    Reader::from(value).downcast()
}

pub fn int16_again(value: i16) -> i16
    ensures { result ≡ value }
{
    Reader::from(value).downcast()
}

pub fn int32_again(value: i32) -> i32
    ensures { result ≡ value }
{
    Reader::from(value).downcast()
}

pub fn int64_again(value: i64) -> i64
    ensures { result ≡ value }
{
    Reader::from(value).downcast()
}

pub fn uint8_again(value: u8) -> u8
    ensures { result ≡ value }
{
    Reader::from(value).downcast()
}

pub fn uint16_again(value: u16) -> u16
    ensures { result ≡ value }
{
    Reader::from(value).downcast()
}

pub fn uint32_again(value: u32) -> u32
    ensures { result ≡ value }
{
    Reader::from(value).downcast()
}

pub fn uint64_again(value: u64) -> u64
    ensures { result ≡ value }
{
    Reader::from(value).downcast()
}

pub fn enum_again<'a>(value: Enum<'a>) -> Enum<'a>
    ensures { result ≡ value.entry }
{
    Reader::from(value).downcast()
}

pub fn text_again<'a>(value: text::Reader<'a>) -> text::Reader<'a>
    ensures { result ≡ value.entry }
{
    Reader::from(value).downcast()
}

pub fn data_again<'a>(value: &'a [u8]) -> &'a [u8]
    ensures { result ≡ value.entry }
{
    Reader::from(value).downcast()
}

pub fn struct_again<'a>(value: dynamic_struct::Reader<'a>) -> dynamic_struct::Reader<'a>
    ensures { result ≡ value.entry }
{
    Reader::from(value).downcast()
}

pub fn list_again<'a>(value: dynamic_list::Reader<'a>) -> dynamic_list::Reader<'a>
    ensures { result ≡ value.entry }
{
    Reader::from(value).downcast()
}

pub fn untyped_again<'a>(value: any_pointer::Reader<'a>) -> any_pointer::Reader<'a>
    ensures { result ≡ value.entry }
{
    Reader::from(value).downcast()
}
