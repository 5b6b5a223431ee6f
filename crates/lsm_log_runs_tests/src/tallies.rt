// How often each thing happened in the scripts.
use crate::known::{Known, Told};
use lsm_runs::{Compacted, Reply};
use lsm_state::{Finished, Registered};

/// How often each thing happened.
#[derive(Clone, Copy, Debug)]
pub struct Tally {
    /// Batches that were acknowledged.
    pub batches: u64,
    /// Lives in which an outcome was unknown, of a commit or of a record.
    pub shut: u64,
    /// Lives after which a batch or clear of unknown outcome wasn't there.
    pub lost: u64,
    /// Lives after which it was.
    pub kept: u64,
    /// Flushes that were installed in one call.
    pub flushed: u64,
    /// Flushes whose job was registered, and installed.
    pub registered: u64,
    /// Compactions that were installed in one call, or as they began.
    pub compacted: u64,
    /// Merges that were done as jobs, and installed.
    pub merged: u64,
    /// Jobs that a step didn't find, or whose slot was in use.
    pub missed: u64,
    /// Clears that were acknowledged.
    pub cleared: u64,
    /// Openings that a fault refused.
    pub refused: u64,
    /// Lives on what a life before left.
    pub second: u64,
    /// Picks of what a crash is to leave.
    pub picks: u64,
}

impl Tally {
    pub const NOTHING: Tally = Tally {
        batches: 0,
        shut: 0,
        lost: 0,
        kept: 0,
        flushed: 0,
        registered: 0,
        compacted: 0,
        merged: 0,
        missed: 0,
        cleared: 0,
        refused: 0,
        second: 0,
        picks: 0,
    };

    pub fn add_reply(&mut self, reply: &Reply) {
        match reply {
            Reply::Number(_) => self.batches = self.batches.saturating_add(1),
            Reply::Cleared(_) => self.cleared = self.cleared.saturating_add(1),
            Reply::Flushed(Some((_, told))) | Reply::FlushedActive(_, Some((_, told))) => {
                self.add_flush(*told);
            }
            Reply::Registered(told) if told.installed => {
                self.registered = self.registered.saturating_add(1);
            }
            Reply::Compacted(Compacted::Installed) => {
                self.compacted = self.compacted.saturating_add(1);
            }
            Reply::Finished(Finished::Installed) => self.merged = self.merged.saturating_add(1),
            Reply::NoJob | Reply::SlotInUse => self.missed = self.missed.saturating_add(1),
            _ => (),
        }
    }

    /// Whether all of it happened often: in 150 scripts each happens about twice as often as is asked here, or more.
    pub fn is_plenty(&self) -> bool {
        let calls = self.batches > 450 && self.flushed > 45 && self.cleared > 12;
        let jobs = self.registered > 5 && self.merged > 5 && self.missed > 130;
        let lives = self.refused > 18 && self.second > 20 && self.picks > 3_400;
        let ends = self.shut > 18 && self.lost > 12 && self.kept > 2;
        calls && self.compacted > 45 && jobs && lives && ends
    }

    fn add_flush(&mut self, told: Registered) {
        if told.installed {
            self.flushed = self.flushed.saturating_add(1);
        }
    }

    pub fn add_known(&mut self, known: &Known) {
        if known.shut {
            self.shut = self.shut.saturating_add(1);
        }
    }

    pub fn add_told(&mut self, told: Told) {
        match told {
            Told::Lost => self.lost = self.lost.saturating_add(1),
            Told::Kept => self.kept = self.kept.saturating_add(1),
            _ => (),
        }
    }
}
