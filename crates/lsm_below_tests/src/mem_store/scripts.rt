// Scripts of calls, each failing in turn, and every pick at each stop; against the table, kept by a slow model.

use super::{A, B, SCRIPT, is_same, leaves, refuses};
use crate::samples::{Call, make};
use lsm_store::{Fault, MemStore, Pick, StoreError};
use std::alloc::{AllocError, Global};
use std::test::Fail;

/// What the table says of one name.
#[derive(Drop)]
struct Row {
    torn: bool,
    contents: Vec<Option<&'static [u8]>>,
    read: Option<&'static [u8]>,
}

impl Row {
    fn new(alloc: Global) -> Result<Row, AllocError> {
        Ok(Row {
            torn: false,
            contents: vec![in alloc; None]?,
            read: None,
        })
    }

    fn allows(&self, content: Option<&[u8]>) -> bool {
        for allowed in &self.contents {
            if is_same(*allowed, content) {
                return true;
            }
        }
        self.torn
    }

    fn only(&mut self, content: Option<&'static [u8]>) -> Result<(), AllocError> {
        self.contents.clear();
        self.contents.push(content)?;
        self.torn = false;
        Ok(())
    }

    /// Whether the call is answered. Whether it is to fail is told, and whether it has its effect.
    fn step(&mut self, call: Call, fails: bool, effect: bool) -> Result<bool, AllocError> {
        match call {
            Call::Write(_, bytes) | Call::Share(_, bytes) => {
                self.torn = true;
                self.read = if effect { Some(bytes) } else { self.read };
            }
            Call::Sync(_) if fails || self.read.is_none() => {
                self.torn = true;
                return Ok(false);
            }
            Call::Sync(_) => self.only(self.read)?,
            Call::Replace(_, bytes) => {
                self.read = if effect { Some(bytes) } else { self.read };
                if fails {
                    self.contents.push(Some(bytes))?;
                } else {
                    self.only(Some(bytes))?;
                }
            }
            Call::Remove(_) => {
                self.read = if effect { None } else { self.read };
                self.contents.push(None)?;
            }
            Call::Settle if effect && !self.torn => self.only(self.read)?,
            Call::Settle => {}
        }
        Ok(!fails)
    }
}

/// Whether the call may change what is held of the name.
fn concerns(call: Call, name: &str) -> bool {
    match call {
        Call::Write(of, _) | Call::Share(of, _) | Call::Replace(of, _) => of == name,
        Call::Sync(of) | Call::Remove(of) => of == name,
        Call::Settle => true,
    }
}

/// Whether the call of this number fails, and has its effect, where the `at`-th has this fault. None where it does nothing.
fn planned(number: u64, at: u64, fault: Fault) -> Option<(bool, bool)> {
    match fault {
        Fault::Once => Some((number == at, number != at)),
        Fault::OnceDone => Some((number == at, true)),
        Fault::OnceNothing if number == at => None,
        Fault::OnceNothing => Some((false, true)),
        Fault::FromHere => Some((number >= at, number < at)),
    }
}

/// Whether a crash may leave this of a name just where its row allows it.
fn agrees(
    alloc: Global,
    store: &MemStore,
    name: &str,
    row: &Row,
    content: Option<&'static [u8]>,
) -> Result<bool, StoreError> {
    let pick = match content {
        Some(bytes) => Pick::Bytes(bytes),
        None => Pick::Absent,
    };
    if row.allows(content) {
        leaves(alloc, store, name, &[(name, pick)], content)
    } else {
        refuses(alloc, store, name, pick)
    }
}

fn all_agree(alloc: Global, store: &MemStore, name: &str, row: &Row) -> Result<bool, StoreError> {
    let contents: [Option<&'static [u8]>; 7] = [
        None,
        Some(b"1"),
        Some(b"2"),
        Some(b"3"),
        Some(b"4"),
        Some(b"5"),
        Some(b"torn"),
    ];
    for content in contents {
        if !agrees(alloc, store, name, row, content)? {
            return Ok(false);
        }
    }
    Ok(true)
}

/// Makes a call on the rows. Whether it is answered.
fn step_rows(
    rows: &mut (Row, Row),
    call: Call,
    outcome: Option<(bool, bool)>,
) -> Result<bool, AllocError> {
    let Some((fails, effect)) = outcome else {
        return Ok(false);
    };
    let mut is_answered = !fails;
    if concerns(call, A) {
        is_answered = rows.0.step(call, fails, effect)?;
    }
    if concerns(call, B) {
        is_answered = rows.1.step(call, fails, effect)?;
    }
    Ok(is_answered)
}

/// Makes a call on the store and on the rows, and looks at every pick. Whether all agree.
fn step(
    alloc: Global,
    store: &mut MemStore,
    rows: &mut (Row, Row),
    call: Call,
    outcome: Option<(bool, bool)>,
) -> Result<bool, StoreError> {
    let wanted = step_rows(rows, call, outcome)?;
    if make(store, call)? != wanted {
        return Ok(false);
    }
    Ok(all_agree(alloc, store, A, &rows.0)? && all_agree(alloc, store, B, &rows.1)?)
}

/// Makes the calls of the script, the `at`-th of which has this fault. Whether every pick agrees at every stop.
fn follows(
    alloc: Global,
    store: &mut MemStore,
    rows: &mut (Row, Row),
    at: u64,
    fault: Fault,
) -> Result<bool, StoreError> {
    let mut number = 0u64;
    for call in SCRIPT {
        number = number.saturating_add(1);
        if !step(alloc, store, rows, call, planned(number, at, fault))? {
            return Ok(false);
        }
    }
    Ok(true)
}

/// The script, where the `at`-th call has this fault. Whether every pick agrees with the table at every stop.
fn script_agrees(alloc: Global, at: u64, fault: Fault) -> Result<bool, StoreError> {
    let mut rows = (Row::new(alloc)?, Row::new(alloc)?);
    let mut store = MemStore::new(alloc);
    store.fail(at, fault);
    let agrees = follows(alloc, &mut store, &mut rows, at, fault);
    drop(store);
    drop(rows);
    agrees
}

#[test]
fn every_call_fails_in_turn(rt: HostRuntime) -> Result<(), Fail> {
    let faults = [
        Fault::Once,
        Fault::OnceDone,
        Fault::OnceNothing,
        Fault::FromHere,
    ];
    for at in 1..14u64 {
        for fault in faults {
            assert!(rt; script_agrees(rt.alloc(), at, fault)?, "{fault:?} of {at}");
        }
    }
    Ok(())
}
