//! The reflection layer of Cap'n Proto under one name: messages under schemas that are known only at run time.
//!
//! There is no code here: each item is one of a crate below, under the name that the public crate `capnp` has for it
//! where it has one. `docs/DIFFERENCES.md` says what differs from there. Contracts cite definitions of the crates below,
//! whose `specs/` a caller's `ghost use` lines name.
#![tactic(auto)]

pub use capnp_device::error::{Error, ErrorKind, Result, SchemaTable};
pub use capnp_wire::size::MessageSize;

/// Any pointers, whose type no schema says.
pub mod any_pointer {
    pub use capnp_builders::any_pointer::{Builder, Owned, Reader};
}

/// Compatible successors of a schema, reads of one under the other, and why a schema is none.
pub mod compatible {
    pub use capnp_compatible::Compatible;
    pub use capnp_differences::{
        Cause, Change, Difference, EnumPair, Explanation, Note, Pair, enumerant_name, explain,
        explain_all,
    };
    pub use capnp_joined_sets::{join, join_owned};
    pub use capnp_versions::{
        Comparison, FullComparison, compare, compare_all, compare_all_owned, get_named_report,
        get_report,
    };
}

/// Data: bytes as they stand.
pub mod data {
    pub use capnp_builders::data::{Builder, Owned, Reader};
}

/// Where bytes come from, and where they go.
pub mod device {
    pub use capnp_device::device::{DeviceFault, ReadSource, Sink, Source, WriteSink};
    pub use capnp_device::memory::{MemorySink, MemorySource};
    pub use capnp_device::transfer::{read_all, write_all};
}

/// Lists whose type is known at run time.
pub mod dynamic_list {
    pub use capnp_dynamic::dynamic_list::{Builder, Reader};
}

/// Structs whose schema is known at run time.
pub mod dynamic_struct {
    pub use capnp_dynamic::dynamic_struct::{Builder, Reader};
}

/// Values whose type is known at run time.
pub mod dynamic_value {
    pub use capnp_dynamic::dynamic_value::{
        AnnotationValue, Builder, DowncastBuilder, DowncastReader, Enum, Kept, Reader,
    };
}

/// The changes from one struct to another of its schema, and the calls that make them.
pub mod diffs {
    pub use capnp_diffs::change::{Change, as_calls};
    pub use capnp_diffs::diff::find_changes;
}

/// Lists that are edited, and copies along paths: where they stand in a message, in runs with calls; lists also in messages
/// of their own, which a set takes.
pub mod edits {
    pub use capnp_edit_calls::acts::Act;
    pub use capnp_edit_calls::appends::{append_all, list_all};
    pub use capnp_edit_calls::change::{Change, make_list};
    pub use capnp_edit_calls::copy::{PathCopy, copy_part};
    pub use capnp_edit_calls::edit::{ListEdit, edit_list};
    pub use capnp_edit_calls::message::{run_acts, run_acts_copied, run_acts_new};
    pub use capnp_edits::added::{list_one, new_elements};
    pub use capnp_edits::edit::{Edit, change_list};
    pub use capnp_splices::read::read_list;
}

/// Types as values.
pub mod introspect {
    pub use capnp_base::introspect::{
        Introspect, RawBrandedStructSchema, RawEnumSchema, Type, TypeVariant,
    };
}

/// Values and messages as JSON, and messages of JSON texts. None of these calls looks whether names of the set meet in JSON:
/// `check_names` does, once for a set.
pub mod json {
    pub use capnp_from_json::error::{Error as ReadError, Refusal as ReadRefusal, RefusalKind};
    pub use capnp_json::error::JsonError;
    pub use capnp_json::forms::{Form, form_of, plain};
    pub use capnp_json::json::{to_json, to_json_as};
    pub use capnp_json::message::message_to_json;
    pub use capnp_json_messages::message::read_message as from_json;
    pub use capnp_json_messages::value::read_value_within;
    pub use capnp_json_names::names::{NamesMeet, check_names};
}

/// Messages as they are received, and as they are built.
pub mod message {
    pub use capnp_arena::list_builder::ListBuilder;
    pub use capnp_arena::message::Builder;
    pub use capnp_arena::pointer_builder::PointerBuilder;
    pub use capnp_arena::struct_builder::StructBuilder;
    pub use capnp_wire::message::Reader;
    pub use capnp_wire::size::{ElementSize, StructSize};
    pub use capnp_wire::{
        ListReader, NumberIter, Numbers, PointerReader, PrimitiveElement, StructReader,
    };
}

/// Calls along paths on messages, as words say them; what stands at a path.
pub mod patch {
    pub use capnp_call::calls::{any_refused, is_refused};
    pub use capnp_patch::engine::run_bytes;
    pub use capnp_patch::get::{get_line, get_line_within};
    pub use capnp_patch::lines::get_lines;
    pub use capnp_patch::reach::read_path;
    pub use capnp_words::call::{CallWord, WordOp, parse_call};
    pub use capnp_words::marked::parse_marked_value;
    pub use capnp_words::path::{Path, PathStep, parse_path};
    pub use capnp_words::target::target_type;
    pub use capnp_words::value::{PlainValue, parse_value};
}

/// Values as text.
pub mod printer {
    pub use capnp_dynamic::printer::{print, print_within};
    pub use capnp_float_texts::printer::print_floats_within;
}

/// What stands at paths of messages: the values, their JSON, texts and lengths.
pub mod query {
    pub use capnp_queries::floats::{get_form_at, has_floats_at, has_floats_behind};
    pub use capnp_queries::json::{NoJson, get_json};
    pub use capnp_queries::length::{NoLength, get_length};
    pub use capnp_queries::patterns::{Listed, NotListed, RefusedPath, list_paths};
    pub use capnp_queries::reach::reach_path;
    pub use capnp_queries::shown::get_shown;
}

/// Sets from the requests of the public compiler.
pub mod request {
    pub use capnp_request::request_set::new_set;
    pub use capnp_request::{Converted, Note, StandIn, read_request};
}

/// Lists of calls along paths, and runs on whole messages.
pub mod run {
    pub use capnp_call::calls::{Call, Op, Plain, Reply, Step, any_refused, is_refused};
    pub use capnp_call::message::{MOST_WORDS, Run, run_copied, run_new, whole_copied, whole_new};
    pub use capnp_call::runs::run_on;
    pub use capnp_run::run::run;
}

/// Schemas, and checked sets of them.
pub mod schema {
    pub use capnp_schema::schema::{
        Annotation, AnnotationList, EnumSchema, Enumerant, EnumerantList, Field, FieldList,
        FieldSubset, GroupWalk, StructSchema,
    };
    pub use capnp_schema::set::{SchemaSet, SetLists};
    pub use capnp_schema::{builtin, meta, plan, record, value};
}

/// Messages that follow one another in a stream.
pub mod serialize {
    pub use capnp_streams::receive::{MOST_BYTES, try_read_message};
}

/// Packed messages.
pub mod serialize_packed {
    pub use capnp_packed::pack::pack;
    pub use capnp_packed::received::read_message;
    pub use capnp_packed::source::UnpackSource;
    pub use capnp_packed::unpack::unpack;
}

/// Sets of schemas as messages.
pub mod sets {
    pub use capnp_set_writer::set_writer::write_set;
    pub use capnp_sets::message::read_message;
    pub use capnp_sets::sets::{read_schema_set, read_set};
}

/// Texts, which need not be UTF-8.
pub mod text {
    pub use capnp_builders::text::{Builder, Owned, Reader};
}

/// Values as they are printed, read back.
pub mod value_texts {
    pub use capnp_value_texts::calls::{field_calls, root_calls};
    pub use capnp_value_texts::error::{Error, Refusal, RefusalKind};
    pub use capnp_value_texts::made::{Goal, Made, as_calls};
    pub use capnp_value_texts::parts::Name;
    pub use capnp_value_texts::shown::{Shown, read_shown};
    pub use capnp_value_texts::target::{Target, field_target};
    pub use capnp_value_texts::value::{read_element, read_field, read_root};
}

/// What handles have in common.
pub mod traits {
    pub use capnp_base::traits::{
        FromPointerReader, HasStructSize, HasTypeId, Index, IndexIter, IndexMove,
        IntoInternalListReader, IntoInternalStructReader, ListIter, ShortListIter,
    };
    pub use capnp_builders::traits::{FromPointerBuilder, Owned, OwnedStruct, SetterInput};
}
