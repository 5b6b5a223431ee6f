// A program's arguments, and what those of this one ask.
use clap::builder::ValueParser;
use clap::{Arg, ArgAction, ArgMatches, Command, Error, value_parser};
use lsm_below::{SeqNo, TableId};
use std::alloc::{AllocError, Global};
use std::rt::Env;
use std::{env, io};

/// The program's arguments, without its name; None where one of them is no text.
pub fn list_arguments<R: Env + AllocGlobal>(rt: &R) -> io::Result<Option<Vec<String>>> {
    match read_arguments(rt) {
        Ok(words) => Ok(Some(words)),
        Err(error) if error.kind() == io::ErrorKind::InvalidData => Ok(None),
        Err(error) => Err(error),
    }
}

fn read_arguments<R: Env + AllocGlobal>(rt: &R) -> io::Result<Vec<String>> {
    let words = env::args(rt)?.skip(1).collect(rt.alloc())?;
    Ok(words)
}

/// Which entries of a table are listed.
#[derive(Clone, Copy, Debug, PartialEq, Eq)]
pub struct Slice<'a> {
    /// The first key that is listed.
    pub from: Option<&'a str>,
    /// The first key that isn't listed any more.
    pub to: Option<&'a str>,
    /// How many are listed at most.
    pub limit: Option<u64>,
}

/// What is shown of a folder.
#[derive(Clone, Copy, Debug, PartialEq, Eq)]
pub enum View {
    /// All files, and totals.
    Dump,
    /// What is wrong.
    Check,
    /// The levels, drawn with characters.
    Levels,
    /// The entries of a table.
    Table(TableId),
    /// The writes of a record.
    Record(SeqNo),
}

/// What of a folder is shown, and how.
#[derive(Clone, Copy, Debug, PartialEq, Eq)]
pub struct Plan<'a> {
    pub folder: &'a str,
    pub view: View,
    pub is_json: bool,
    pub slice: Slice<'a>,
}

/// What is asked of a folder.
#[derive(Clone, Copy, Debug, PartialEq, Eq)]
pub enum Task<'a> {
    Show(Plan<'a>),
    /// Write the pairs of this folder as lines that `mdb_load` reads.
    Export(&'a str),
}

/// What goes with an option.
#[derive(Clone, Copy)]
enum Company {
    /// It chooses what is shown, which one option does.
    View,
    /// It stands beside `--table`.
    Table,
    /// It chooses what is shown, and no object is made of it.
    Lines,
    /// It stands beside all that an object can be made of.
    Object,
}

/// An option: its name, what stands for its value where one follows it, what goes with it, and its help.
type Row = (&'static str, Option<&'static str>, Company, &'static str);

const OPTIONS: [Row; 9] = [
    (
        "check",
        None,
        Company::View,
        "read all that opening reads, and say whether it would open; of each damaged file what is wrong",
    ),
    ("table", Some("N"), Company::View, "the entries of tables/N"),
    (
        "from",
        Some("KEY"),
        Company::Table,
        "begin at this key; one behind 0x is in hex",
    ),
    ("to", Some("KEY"), Company::Table, "end before this key"),
    (
        "limit",
        Some("N"),
        Company::Table,
        "end after so many entries",
    ),
    ("record", Some("N"), Company::View, "the writes of log/N"),
    (
        "levels",
        None,
        Company::Lines,
        "the levels, drawn with characters",
    ),
    (
        "export",
        None,
        Company::Lines,
        "all pairs, as lines that mdb_load and lsm_load read; what can't be read is named on standard error",
    ),
    ("json", None, Company::Object, "one JSON object"),
];

/// What stands below the options on the page of `--help`.
const STATUSES: &str = "\
Status:
  0  all was shown; with --check the tree would be opened
  1  a fault of the folder or the output; no such table or record, or a damaged one; with --check the tree would be refused;
     with --export something was left out
  2  other arguments than these";

fn option_of<'a>(alloc: Global, row: &Row) -> Result<Arg<'a>, AllocError> {
    let (name, value, company, help) = *row;
    let arg = Arg::new(alloc, name).long(name).help(help);
    let arg = match value {
        Some("N") => arg.value_name("N").value_parser(value_parser!(u64)),
        Some(value) => arg.value_name(value).allow_hyphen_values(true),
        None => arg.action(ArgAction::SetTrue),
    };
    match company {
        Company::View => arg.group("view"),
        Company::Table => arg.requires_arg("table"),
        Company::Lines => arg.group("view")?.conflicts_with("json"),
        Company::Object => Ok(arg),
    }
}

fn command<'a>(alloc: Global) -> Result<Command<'a>, AllocError> {
    let folder = Arg::new(alloc, "FOLDER")
        .required(true)
        .value_parser(ValueParser::NonEmptyString)
        .help(
            "alone: the version, each table, each record of the log, orphans, what is damaged, and totals",
        );
    let mut command = Command::new(alloc, "lsm_dump")
        .no_binary_name(true)
        .about("Looks into the folder of a tree, writes nothing there, and takes no lock.")
        .after_help(STATUSES)
        .arg(folder)?;
    for row in &OPTIONS {
        command = command.arg(option_of(alloc, row)?)?;
    }
    Ok(command)
}

fn view_of(matches: &ArgMatches<'_>) -> View {
    if let Some(id) = matches.get_one::<u64>("table") {
        View::Table(id)
    } else if let Some(number) = matches.get_one::<u64>("record") {
        View::Record(number)
    } else if matches.get_flag("check") {
        View::Check
    } else if matches.get_flag("levels") {
        View::Levels
    } else {
        View::Dump
    }
}

/// What these arguments ask; the help that they ask for is an error too.
pub fn parse_arguments<'a>(alloc: Global, words: &'a [String]) -> Result<Task<'a>, Error> {
    let matches = command(alloc)?.try_get_matches_from(words)?;
    let folder = matches.get_str("FOLDER").unwrap_or_default();
    if matches.get_flag("export") {
        return Ok(Task::Export(folder));
    }
    Ok(Task::Show(Plan {
        folder,
        view: view_of(&matches),
        is_json: matches.get_flag("json"),
        slice: Slice {
            from: matches.get_str("from"),
            to: matches.get_str("to"),
            limit: matches.get_one::<u64>("limit"),
        },
    }))
}
