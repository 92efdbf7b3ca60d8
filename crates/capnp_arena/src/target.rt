//! The target of a pointer.
ghost use Rattle.std.specs.Prelude.{◌+◌, ◌*◌, ◌/◌, ◌<◌, ◌^◌, ◌≡◌, length};
ghost use Rattle.capnp_wire.specs.Slot.{number_at};
ghost use Rattle.capnp_arena.specs.Forest.{Forest};
ghost use Rattle.capnp_arena.specs.Steps.Looked.{composite_looked, list_looked, looked_shape, shape_found, struct_looked};
ghost use Rattle.capnp_arena.specs.Shape.{Points, shape_at};

use crate::look::{
    Target, get_count, get_data_words, get_element_size, get_offset, get_pointer_count, get_word,
};

#[inline(always)]
fn look_at_struct(w: usize, word: u64) -> Target
    requires { w < 2 ^ 30 }
    ensures { shape_found result ≡ struct_looked w word }
{
    let data_words = get_data_words(word);
    let pointers = get_pointer_count(word);
    let start = if data_words as usize + pointers as usize == 0 {
        w
    } else {
        w + 1 + get_offset(word)
    };
    Target::Struct {
        start,
        data_words,
        pointers,
    }
}

/// A composite list by its tag.
#[inline(always)]
fn look_at_tag(tag: usize, word: u64) -> Target
    ensures { shape_found result ≡ composite_looked tag word }
{
    Target::Composite {
        tag,
        count: get_offset(word) as u32,
        data_words: get_data_words(word),
        pointers: get_pointer_count(word),
    }
}

#[inline(always)]
fn look_at_list(bytes: &[u8], w: usize, word: u64) -> Target
    requires { w < 2 ^ 30 }
    ensures { shape_found result ≡ list_looked bytes.now w word }
{
    let start = w + 1 + get_offset(word);
    let element_size = get_element_size(word);
    if element_size == 7 {
        look_at_tag(start, get_word(bytes, start))
    } else {
        Target::List {
            start,
            element_size,
            count: get_count(word),
        }
    }
}

/// What the word of a pointer says.
#[inline(always)]
fn look_at_word(bytes: &[u8], w: usize) -> Target
    requires { w < 2 ^ 30 }
    ensures { shape_found result ≡ looked_shape bytes.now w (number_at 8 w bytes.now) }
{
    let word = get_word(bytes, w);
    if word == 0 {
        Target::Null
    } else if word % 4 == 0 {
        look_at_struct(w, word)
    } else {
        look_at_list(bytes, w, word)
    }
}

/// Where the pointer at a word leads.
#[inline(always)]
pub(crate) fn look(bytes: &[u8], w: usize) -> Target
    requires forest { Forest bytes.now w }
    requires few { w < 2 ^ 30 }
    ensures shape { shape_found result ≡ shape_at bytes.now w }
    ensures points { Points bytes.now w (shape_found result) }
{
    look_at_word(bytes, w)
}
