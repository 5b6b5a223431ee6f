// What the program's arguments ask.
ghost use Rattle.std.specs.Prelude.{◌≡◌, map, option_map, string_bytes};
ghost use Rattle.lsm_shell_parts.specs.Arguments.{asked, asked_by, folder_of, callers_of};

use lsm_below::parse_number;

/// The greatest number of callers.
const MOST_CALLERS: u64 = 64;

/// What the program is to do.
#[derive(Clone, Copy, Debug, PartialEq, Eq)]
pub enum Mode<'a> {
    /// Answer lines, over a store in memory, with a log above the tree or not.
    Memory(bool),
    /// The same over this folder.
    Folder(&'a str, bool),
    /// Start so many callers, from 1 to 64.
    Threads(u8),
}

/// What these arguments ask, None where they ask nothing that the program knows.
pub fn parse_arguments(arguments: &[String]) -> Option<Mode<'_>>
    ensures { option_map asked result ≡ asked_by (map string_bytes arguments.now) }
{
    match arguments {
        [] => Some(Mode::Memory(false)),
        [word] if word.as_str() == "logged" => Some(Mode::Memory(true)),
        [word] => parse_folder(word.as_str(), false),
        [verb, word] if verb.as_str() == "threads" => parse_callers(word.as_bytes()),
        [verb, word] if verb.as_str() == "logged" => parse_folder(word.as_str(), true),
        _ => None,
    }
}

fn parse_folder(path: &str, is_logged: bool) -> Option<Mode<'_>>
    ensures { option_map asked result ≡ folder_of path.now is_logged }
{
    if path.is_empty() {
        return None;
    }
    Some(Mode::Folder(path, is_logged))
}

fn parse_callers<'a>(count: &[u8]) -> Option<Mode<'a>>
    ensures { option_map asked result ≡ callers_of count.now }
{
    match parse_number(count) {
        Some(callers) if 0 < callers && callers <= MOST_CALLERS => {
            Some(Mode::Threads(callers as u8))
        }
        _ => None,
    }
}
