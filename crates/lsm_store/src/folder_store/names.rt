// What the names of a folder tell of whether it is a tree's.
use super::disk::{SUBFOLDERS, is_absent, list_files, path_below};
use super::fault::{FolderCall, FolderFault};
use std::alloc::Global;
use std::fs::Files;
use std::io::{self, ErrorKind};

/// The file that leads to the version of a tree. It is there before any table, record or later version is.
const CURRENT: &str = "current";

/// The first version of a tree, there before `current` is.
const FIRST: &str = "v0";

/// What tells a tree of an older format.
pub(crate) const OLDER: &str = "version";

/// The file that a replacement fills.
pub(crate) const FRESH: &str = "replace.new";

/// Whether a text is a number below 2^64, as it is printed.
fn is_plain_number(text: &str) -> bool {
    text.parse::<u64>().is_ok() && (text == "0" || !text.starts_with('0') && !text.starts_with('+'))
}

/// Whether a name of the folder itself is none of a tree's, and yet would be removed with the versions of one.
fn is_foreign(name: &str) -> bool {
    match name.strip_prefix('v') {
        Some(rest) => name != OLDER && !is_plain_number(rest),
        None => false,
    }
}

/// Whether no crash leaves this name where `current` is absent: it is a table's, a record's, or that of a version above 0.
fn needs_current(name: &str) -> bool {
    match name.split_once('/') {
        Some((_, file)) => is_plain_number(file),
        None => name != FIRST && name.strip_prefix('v').is_some_and(is_plain_number),
    }
}

/// The first of these names beside which `current` is missing. None where it is there, or may be absent.
pub fn missing_current(names: &[String]) -> Option<&str> {
    let mut lacking = None;
    for name in names {
        if name.as_str() == CURRENT {
            return None;
        }
        if lacking.is_none() && needs_current(name.as_str()) {
            lacking = Some(name.as_str());
        }
    }
    lacking
}

/// The names of all files of a folder, which may be absent or lack its subfolders. Those of the subfolders come first: what stands
/// there was written behind `current`.
fn list_present<R: Files + Alloc + Clone + Drop>(
    rt: &R,
    alloc: Global,
    root: &str,
) -> io::Result<Vec<String>> {
    let mut names = Vec::new(alloc);
    for folder in SUBFOLDERS {
        let path = path_below(alloc, root, folder)?;
        let prefix = path_below(alloc, folder, "")?;
        list_if_there(rt, alloc, path.as_str(), prefix.as_str(), &mut names)?;
    }
    list_if_there(rt, alloc, root, "", &mut names)?;
    Ok(names)
}

fn list_if_there<R: Files + Alloc + Clone + Drop>(
    rt: &R,
    alloc: Global,
    folder: &str,
    prefix: &str,
    names: &mut Vec<String>,
) -> io::Result<()> {
    match list_files(rt, alloc, folder, prefix, names) {
        Err(error) if error.kind() == ErrorKind::NotFound => Ok(()),
        told => told,
    }
}

/// What keeps a folder from being a tree's: opening one in it would remove what is there.
pub(crate) fn find_foreign<R: Files + Alloc + Clone + Drop>(
    rt: &R,
    alloc: Global,
    root: &str,
) -> io::Result<Option<FolderFault>> {
    if root.is_empty() {
        return Err(io::Error::new(ErrorKind::InvalidInput, "a folder without a name"));
    }
    let names = list_present(rt, alloc, root)?;
    if let Some(name) = names.iter().find(|name| is_foreign(name.as_str())) {
        let words = "begins as the versions of a tree do, which opening removes: move it away";
        return Ok(Some(refusal(alloc, name.as_str(), words)));
    }
    if let Some(name) = missing_current(&names) {
        let words = format!(in alloc; "is missing beside {name}: put it back from a copy")?;
        return Ok(Some(refusal(alloc, CURRENT, words.as_str())));
    }
    let is_there = |wanted: &str| names.iter().any(|name| name.as_str() == wanted);
    if is_there(FRESH) && !is_there(CURRENT) && !is_there(FIRST) {
        let words = "isn't a tree's, and opening removes it: move it away";
        return Ok(Some(refusal(alloc, FRESH, words)));
    }
    Ok(None)
}

fn refusal(alloc: Global, name: &str, words: &str) -> FolderFault {
    let error = io::Error::new(ErrorKind::InvalidInput, words);
    FolderFault::new(alloc, name, FolderCall::Open, error)
}

/// Whether a name in `tables` or `log` is none that these have. What a desktop leaves there is passed over.
fn is_odd(name: &str) -> bool {
    match name.split_once('/') {
        Some((_, file)) => {
            file != ".DS_Store" && !file.starts_with("._") && !is_plain_number(file)
        }
        None => false,
    }
}

/// The first name of those that begin so that keeps a tree from being opened, in words.
pub(crate) fn find_odd<R: Files + Alloc + Clone + Drop>(
    rt: &R,
    alloc: Global,
    root: &str,
    prefix: &str,
) -> io::Result<Option<String>> {
    for name in &list_present(rt, alloc, root)? {
        if name.starts_with(prefix) && is_odd(name.as_str()) {
            return Ok(Some(format!(in alloc; "{name}: open: isn't a file of a tree")?));
        }
    }
    Ok(None)
}

/// The last record, in words, where a tree without a log was asked for.
pub(crate) fn find_record<R: Files + Alloc + Clone + Drop>(
    rt: &R,
    alloc: Global,
    root: &str,
) -> io::Result<Option<String>> {
    let mut last = None;
    for name in &list_present(rt, alloc, root)? {
        if let Some(file) = name.strip_prefix("log/") {
            last = last.max(file.parse::<u64>().ok());
        }
    }
    match last {
        Some(number) => {
            let words = "open: a record of a write log, which only a logged tree reads";
            Ok(Some(format!(in alloc; "log/{number}: {words}")?))
        }
        None => Ok(None),
    }
}
