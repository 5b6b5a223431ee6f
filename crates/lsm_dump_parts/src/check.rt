// What is wrong with a folder, and whether its tree would be opened.
use crate::look::{Damage, folder_faults, look_into, names_of};
use crate::text::push_damage;
use crate::verdict::judge;
use lsm_below::Error;
use lsm_store::Store;
use serde::Serialize;
use std::alloc::{AllocError, Global};

/// Whether the tree of a folder would be opened, the number and the name of the error that refuses it, which are absent where the
/// folder isn't taken as a tree's, and what is wrong.
#[derive(Drop, Serialize)]
pub(crate) struct Verdict {
    pub(crate) opens: bool,
    #[serde(skip_serializing_if = "Option::is_none")]
    error: Option<u8>,
    #[serde(skip_serializing_if = "Option::is_none")]
    name: Option<&'static str>,
    faults: Vec<Damage>,
}

/// The verdict where a folder isn't taken as a tree's: also what else is wrong.
fn no_folder<S: Store>(
    alloc: Global,
    store: &mut S,
    faults: Vec<Damage>,
) -> Result<Verdict, Error> {
    let mut faults = faults;
    faults.append(&mut look_into(alloc, store)?.faults)?;
    Ok(Verdict {
        opens: false,
        error: None,
        name: None,
        faults,
    })
}

/// The verdict on a folder. Files are read again only where it wouldn't be opened.
pub(crate) fn verdict_of<S: Store>(alloc: Global, store: &mut S) -> Result<Verdict, Error> {
    let names = names_of(alloc, store)?;
    let faults = folder_faults(alloc, &names)?;
    if !faults.is_empty() {
        return no_folder(alloc, store, faults);
    }
    match judge(alloc, store) {
        Ok(()) => Ok(Verdict {
            opens: true,
            error: None,
            name: None,
            faults,
        }),
        Err(Error::OutOfMemory) => Err(Error::OutOfMemory),
        Err(Error::Store) => Err(Error::Store),
        Err(error) => Ok(Verdict {
            opens: false,
            error: Some(error.number()),
            name: Some(error.name()),
            faults: look_into(alloc, store)?.faults,
        }),
    }
}

/// Appends what is wrong, and what opening would answer.
pub(crate) fn push_verdict(out: &mut String, verdict: &Verdict) -> Result<(), AllocError> {
    push_damage(out, &verdict.faults)?;
    match (verdict.error, verdict.name) {
        (Some(number), Some(name)) => write!(out, "refused: error {number} {name}\n"),
        _ if verdict.opens => out.push_str("opens\n"),
        _ => out.push_str("refused: the folder is no tree's\n"),
    }
}
