// The run of the program.
use crate::arguments::{Plan, Task, View, parse_arguments};
use crate::check::{push_verdict, verdict_of};
use crate::entries::{Bounds, Listing, bounds_of, list_record, list_table, push_listing};
use crate::export::{Export, export_pairs};
use crate::folder::FolderView;
use crate::levels::push_levels;
use crate::look::{Look, Readable, find_readable, look_into, read_record};
use crate::text::push_look;
use lsm_below::{Error, TableId};
use lsm_log::record_name;
use lsm_manifest::table_name;
use lsm_store::Store;
use serde::Serialize;
use std::alloc::Global;
use std::fs::{File, Files};
use std::io::Write;

const SUCCESS: u8 = 0;

const FAULT: u8 = 1;

const USAGE: u8 = 2;

/// What came of a look: what is printed, and whether nothing is wrong.
#[derive(Drop)]
pub struct Shown {
    pub text: String,
    pub is_good: bool,
}

/// A line of one object.
fn object_text<T: Serialize>(alloc: Global, value: &T) -> Result<String, Error> {
    let Ok(mut text) = serde_json::to_string(alloc, value) else {
        return Err(Error::OutOfMemory);
    };
    text.push('\n')?;
    Ok(text)
}

/// The text of a look, by what is shown of it.
fn look_text(alloc: Global, found: &Look, plan: &Plan<'_>) -> Result<String, Error> {
    if plan.is_json {
        return object_text(alloc, found);
    }
    let mut text = String::new(alloc);
    match plan.view {
        View::Levels => push_levels(alloc, &mut text, found)?,
        _ => push_look(alloc, &mut text, found)?,
    }
    Ok(text)
}

/// What is wrong with a folder, and whether it would be opened.
fn check<S: Store>(alloc: Global, store: &mut S, is_json: bool) -> Result<Shown, Error> {
    let verdict = verdict_of(alloc, store)?;
    let text = if is_json {
        object_text(alloc, &verdict)?
    } else {
        let mut text = String::new(alloc);
        push_verdict(&mut text, &verdict)?;
        text
    };
    Ok(Shown {
        text,
        is_good: verdict.opens,
    })
}

/// What is listed, or what is wrong with the file of this name.
fn show_listing(
    alloc: Global,
    name: &str,
    listing: Result<Listing, String>,
    is_json: bool,
) -> Result<Shown, Error> {
    let is_good = listing
        .as_ref()
        .is_ok_and(|listing| listing.fault().is_none());
    let text = match listing {
        Ok(listing) if is_json => object_text(alloc, &listing)?,
        Ok(listing) => {
            let mut text = String::new(alloc);
            push_listing(&mut text, &listing)?;
            if let Some(fault) = listing.fault() {
                write!(text, "{name}: {fault}\n")?;
            }
            text
        }
        Err(fault) => format!(in alloc; "{name}: {fault}\n")?,
    };
    Ok(Shown { text, is_good })
}

/// The entries of a table, and what is wrong with its file: of a damaged one what can be read.
fn show_table<S: Store>(
    alloc: Global,
    store: &mut S,
    id: TableId,
    plan: &Plan<'_>,
    bounds: &Bounds,
) -> Result<Shown, Error> {
    let Readable { table, fault } = find_readable(alloc, store, id)?;
    let listing = match (table, fault) {
        (Some(table), fault) => Ok(list_table(alloc, &table, fault, bounds)?),
        (None, fault) => Err(fault.unwrap_or(String::new(alloc))),
    };
    show_listing(alloc, table_name(id).as_str(), listing, plan.is_json)
}

/// What a plan shows of a store. Nothing of the store is changed.
///
/// # Errors
///
/// `OutOfMemory` where a growth was refused, `Store` where a store call failed.
pub fn show<S: Store>(
    alloc: Global,
    store: &mut S,
    plan: &Plan<'_>,
    bounds: &Bounds,
) -> Result<Shown, Error> {
    match plan.view {
        View::Check => check(alloc, store, plan.is_json),
        View::Table(id) => show_table(alloc, store, id, plan, bounds),
        View::Record(number) => {
            let listing = match read_record(alloc, store, number)?.content {
                Ok(record) => Ok(list_record(alloc, &record)?),
                Err(fault) => Err(fault),
            };
            show_listing(alloc, record_name(number).as_str(), listing, plan.is_json)
        }
        View::Dump | View::Levels => Ok(Shown {
            text: look_text(alloc, &look_into(alloc, store)?, plan)?,
            is_good: true,
        }),
    }
}

/// Says why the arguments ask nothing.
fn tell_usage<E: Write>(errors: &mut E, why: &str) -> u8 {
    let _ = write!(errors, "lsm_dump: {why}; --help tells more\n");
    USAGE
}

/// Says why a folder wasn't read.
fn tell_fault<P, E>(errors: &mut E, store: &FolderView<P>, error: &Error) -> u8
where
    P: Files<File = File> + Alloc + Clone + Drop,
    E: Write,
{
    let _ = match store.last_fault() {
        Some(fault) if matches!(error, Error::Store) => write!(errors, "lsm_dump: {fault}\n"),
        _ => write!(errors, "lsm_dump: {error}\n"),
    };
    FAULT
}

fn print<W: Write>(output: &mut W, text: &str, status: u8) -> u8 {
    match output.write_all(text.as_bytes()) {
        Ok(()) => status,
        Err(_) => FAULT,
    }
}

fn show_folder<P, W, E>(
    rt: &P,
    alloc: Global,
    plan: &Plan<'_>,
    output: &mut W,
    errors: &mut E,
) -> u8
where
    P: Files<File = File> + Alloc + Clone + Drop,
    W: Write,
    E: Write,
{
    let bounds = match bounds_of(alloc, &plan.slice) {
        Ok(Some(bounds)) => bounds,
        Ok(None) => return tell_usage(errors, "what stands behind 0x is no bytes in hex"),
        Err(_) => return FAULT,
    };
    let Ok(mut store) = FolderView::new(rt, alloc, plan.folder) else {
        return FAULT;
    };
    match show(alloc, &mut store, plan, &bounds) {
        Ok(shown) => {
            let status = if shown.is_good { SUCCESS } else { FAULT };
            print(output, shown.text.as_str(), status)
        }
        Err(error) => tell_fault(errors, &store, &error),
    }
}

/// Writes the lines of an export, and names what is left out.
fn print_export<W: Write, E: Write>(
    alloc: Global,
    export: &Export,
    output: &mut W,
    errors: &mut E,
) -> u8 {
    if export.write_to(alloc, output).is_err() {
        return FAULT;
    }
    for damage in &export.left_out {
        let (file, fault) = (&damage.file, &damage.fault);
        let _ = write!(errors, "left out: {file}: {fault}\n");
    }
    if export.left_out.is_empty() {
        SUCCESS
    } else {
        FAULT
    }
}

fn export_folder<P, W, E>(rt: &P, alloc: Global, folder: &str, output: &mut W, errors: &mut E) -> u8
where
    P: Files<File = File> + Alloc + Clone + Drop,
    W: Write,
    E: Write,
{
    let Ok(mut store) = FolderView::new(rt, alloc, folder) else {
        return FAULT;
    };
    match export_pairs(alloc, &mut store) {
        Ok(export) => print_export(alloc, &export, output, errors),
        Err(error) => tell_fault(errors, &store, &error),
    }
}

/// Does what the arguments ask, and gives the status to end with: 0, 1 after a fault of the folder or of the output, or where
/// what was asked for is damaged or left out, and 2 where they ask nothing. `arguments` is None where one of them is no text.
pub fn run_dump<P, W, E>(
    rt: &P,
    alloc: Global,
    arguments: Option<&[String]>,
    output: &mut W,
    errors: &mut E,
) -> u8
where
    P: Files<File = File> + Alloc + Clone + Drop,
    W: Write,
    E: Write,
{
    let Some(words) = arguments else {
        return tell_usage(errors, "an argument is no text");
    };
    match parse_arguments(alloc, words) {
        Ok(Task::Show(plan)) => show_folder(rt, alloc, &plan, output, errors),
        Ok(Task::Export(folder)) => export_folder(rt, alloc, folder, output, errors),
        Err(told) if told.use_stderr() => {
            let _ = write!(errors, "{told}");
            USAGE
        }
        Err(help) => match write!(output, "{help}") {
            Ok(()) => SUCCESS,
            Err(_) => FAULT,
        },
    }
}
