//! What the program's words ask for.
ghost use Rattle.std.specs.Prelude.{◌≡◌, ◌<◌, length, IfSome, Some};
ghost use Rattle.std.specs.Option.{option_map};
ghost use Rattle.capnp_schema.specs.Builtin.{builtin};
ghost use Rattle.capnp_schema.specs.ByName.{brand_named};
ghost use Rattle.capnp_show_engine.specs.Command.{IsOfBuiltin, asked_show, built_in_asked, in_file, show_task_of};

/// The text under a brand of the built-in set, and whether it is indented.
#[derive(Clone, Copy, Debug, PartialEq, Eq)]
pub struct Request {
    pub brand: u32,
    pub indented: bool,
}

/// The text under the struct of a name, in the set that a file holds, and whether it is indented.
#[derive(Clone, Copy, Debug, PartialEq, Eq)]
pub struct FileRequest<'a> {
    pub path: &'a str,
    pub name: &'a str,
    pub indented: bool,
}

/// What the words ask for.
#[derive(Clone, Copy, Debug, PartialEq, Eq)]
pub enum Asked<'a> {
    BuiltIn(Request),
    InFile(FileRequest<'a>),
}

/// The struct of the built-in set that has the name and is no group. It takes no memory, so that an unknown name is
/// told whatever memory there is.
fn find_builtin_brand(name: &str) -> Option<u32>
    ensures found { result ≡ brand_named builtin name.now }
    ensures inside { IfSome result (λ b. b < length builtin.brands) }
{
    match name {
        "Flat" => Some(0),
        "Mixed" => Some(1),
        "Many" => Some(2),
        "Shapes" => Some(3),
        "Loop" => Some(6),
        "Lists" => Some(7),
        "Node" => Some(8),
        _ => None,
    }
}

/// The text under the struct of a name in the built-in set.
fn ask_built_in(name: &str, indented: bool) -> Option<Asked<'_>>
    ensures asked { option_map show_task_of result ≡ built_in_asked indented (brand_named builtin name.now) }
    ensures inside { IfSome result IsOfBuiltin }
{
    let brand = find_builtin_brand(name)?;
    Some(Asked::BuiltIn(Request { brand, indented }))
}

/// The text under the struct of a name in the set that a file holds.
fn ask_in_file<'a>(path: &'a str, name: &'a str, indented: bool) -> Option<Asked<'a>>
    ensures asked { option_map show_task_of result
        ≡ Some (in_file (record { path = path.now; name = name.now; indented = indented })) }
    ensures inside { IfSome result IsOfBuiltin }
{
    Some(Asked::InFile(FileRequest {
        path,
        name,
        indented,
    }))
}

/// What the words ask for: the name of a struct, alone or followed by `--indent`, and before them `--set` and a path or
/// neither.
#[tactic(auto, using(crate::proofs::Words::none_asked, crate::proofs::Words::too_many))]
pub fn read_words(words: &[String]) -> Option<Asked<'_>>
    ensures asked { option_map show_task_of result ≡ asked_show words.now }
    ensures inside { IfSome result IsOfBuiltin }
{
    match words {
        [name] => ask_built_in(name.as_str(), false),
        [name, last] => {
            if last.as_str() == "--indent" {
                ask_built_in(name.as_str(), true)
            } else {
                None
            }
        }
        [first, path, name] => {
            if first.as_str() == "--set" {
                ask_in_file(path.as_str(), name.as_str(), false)
            } else {
                None
            }
        }
        [first, path, name, last] => {
            if first.as_str() == "--set" && last.as_str() == "--indent" {
                ask_in_file(path.as_str(), name.as_str(), true)
            } else {
                None
            }
        }
        _ => None,
    }
}
