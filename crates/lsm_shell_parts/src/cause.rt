// Why a store failed, or what a refused opening fell on, as it is told beside an answer.
use lsm_below::parse_number;
use lsm_tree::{Error, FolderError, FolderFault, FolderStore, MemStore, Store};
use std::alloc::{AllocError, Global};
use std::fs::{File, Files};

/// A store that a session may crash, and that may tell why it failed.
pub trait SessionStore: Store {
    /// What a crash at this moment leaves, where all that isn't synced and all that was removed is absent. None of a store
    /// that can't be crashed.
    fn crashed(&self) -> Result<Option<Self>, AllocError> {
        Ok(None)
    }

    /// Why the last call failed that did, where the store tells it.
    fn last_fault(&self) -> Option<&FolderFault> {
        None
    }

    /// What a tree over the store refused, and the place where. The place is empty where the store tells none.
    fn explain(&self, alloc: Global, error: Error) -> FolderError {
        let place = String::new(alloc);
        FolderError { place, error }
    }
}

impl SessionStore for MemStore {
    fn crashed(&self) -> Result<Option<MemStore>, AllocError> {
        self.crash(&[])
    }
}

impl<P: Files<File = File> + Alloc + Clone + Drop> SessionStore for FolderStore<P> {
    fn last_fault(&self) -> Option<&FolderFault> {
        FolderStore::last_fault(self)
    }

    fn explain(&self, _alloc: Global, error: Error) -> FolderError {
        FolderStore::explain(self, error)
    }
}

/// What is told of a record that counts, where the tree is opened without its log.
const HAS_LOG: &str = "give `logged` before the folder";

/// Why nothing was opened: the error, what is told of it, where something is known, and what can be done.
#[derive(Drop)]
pub struct Refusal {
    pub error: Error,
    pub cause: Option<String>,
    pub remedy: &'static str,
}

/// Whether a place is a record's, as `log/7: open`.
fn is_record(place: &str) -> bool {
    let (name, _) = place.split_once(':').unwrap_or((place, ""));
    match name.strip_prefix("log/") {
        Some(number) => parse_number(number.as_bytes()).is_some(),
        None => false,
    }
}

impl Refusal {
    pub(crate) fn new(error: Error, cause: Option<String>) -> Refusal {
        let remedy = match error {
            Error::OutOfMemory => "all tables are held in memory, and there isn't enough of it",
            Error::Store | Error::CommitUnknown => {
                "see that the folder is new or a tree's, that it may be written, that its disk has room, and that no other \
                 session has it open"
            }
            Error::OutOfNumbers => "the sequence numbers of this folder are used up",
            _ => "nothing was changed: put the file back from a copy, or begin in another folder",
        };
        Refusal {
            error,
            cause,
            remedy,
        }
    }

    /// That of a tree over a store which tells this of it.
    fn told(alloc: Global, told: FolderError, is_logged: bool) -> Refusal {
        let place = told.place.as_str();
        if !is_logged && told.error == Error::Unrecoverable && is_record(place) {
            return Refusal {
                cause: format!(in alloc; "{place}: {HAS_LOG}").ok(),
                error: told.error,
                remedy: "nothing was changed",
            };
        }
        let cause = if place.is_empty() {
            None
        } else {
            format!(in alloc; "{told}").ok()
        };
        Refusal::new(told.error, cause)
    }
}

/// A tree that wasn't opened: why, and its store.
#[derive(Drop)]
pub struct Unopened<S> {
    pub refusal: Refusal,
    pub store: S,
}

impl<S: SessionStore> Unopened<S> {
    /// A refused opening, with a log or without.
    pub(crate) fn new(alloc: Global, error: Error, store: S, is_logged: bool) -> Unopened<S> {
        let told = store.explain(alloc, error);
        let refusal = Refusal::told(alloc, told, is_logged);
        Unopened { refusal, store }
    }
}

/// The last fault of a store in words. None where the store tells none, or memory is refused.
pub(crate) fn fault_of<S: SessionStore>(alloc: Global, store: &S) -> Option<String> {
    let fault = store.last_fault()?;
    format!(in alloc; "{fault}").ok()
}
