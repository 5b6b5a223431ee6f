// One of the callers, and what it notes.
use crate::writes::Batch;
use anyhow::{Result, bail};
use lsm_tree::{Error, Major, RunJob, SeqNo, Store, Tree};
use std::alloc::Global;
use std::fs::File;
use std::io::Write;
use std::sync::Wait;
use std::thread;
use std::time::{Clock, Duration};

/// How many milliseconds a writer waits after a call, and each of the others.
const SHORT: u64 = 1;

const LONG: u64 = 30;

/// The clearer clears at one of so many turns.
const TURNS_OF_CLEAR: u64 = 20;

/// What the arguments ask.
#[derive(Clone, Copy)]
pub struct Plan<'a> {
    pub session: &'a str,
    pub turns: u64,
}

#[derive(Drop)]
pub struct Caller<'a, R: Wait + Clock, S: Store> {
    pub rt: &'a R,
    pub alloc: Global,
    pub tree: &'a Tree<S>,
    pub plan: Plan<'a>,
    /// Which one it is.
    pub number: usize,
}

/// Notes a line, in one system call.
fn note(log: &mut File, line: &str) -> Result<()> {
    log.write_all(line.as_bytes())?;
    Ok(())
}

impl<R: Wait + Clock, S: Store> Caller<'_, R, S> {
    /// Takes its turns, up to one that is refused. Answers whether none was.
    pub fn call(&self, log: &mut File) -> bool {
        for turn in 0..self.plan.turns {
            if let Err(error) = self.take_turn(log, turn) {
                let _ = self.note_failure(log, &error);
                return false;
            }
        }
        true
    }

    fn note_failure(&self, log: &mut File, error: &anyhow::Error) -> Result<()> {
        note(log, &format!(in self.alloc; "failed {error}\n")?)
    }

    fn take_turn(&self, log: &mut File, turn: u64) -> Result<()> {
        match self.number {
            0..=7 => self.write(log, turn),
            8 => self.flush(log),
            9 => self.clear(log, turn),
            _ => self.compact(log),
        }
    }

    /// Notes what begins, and the snapshot at which it does.
    fn begin(&self, log: &mut File, what: &str) -> Result<SeqNo> {
        let snapshot = self.tree.visible_number(self.rt);
        note(log, &format!(in self.alloc; "{what} {snapshot}\n")?)?;
        Ok(snapshot)
    }

    /// Notes that a call is done, and waits.
    fn end(&self, log: &mut File, number: SeqNo, wait: u64) -> Result<()> {
        note(log, &format!(in self.alloc; "ok {number}\n")?)?;
        thread::sleep(self.rt, Duration::from_millis(wait));
        Ok(())
    }

    fn write(&self, log: &mut File, turn: u64) -> Result<()> {
        let alloc = self.alloc;
        let batch = Batch::at_turn(alloc, self.plan.session, self.number, turn)?;
        note(log, &batch.line(alloc)?)?;
        let number = self.tree.write(self.rt, batch.ops(alloc)?)?;
        if !self.reads(&batch, number.saturating_add(1))? {
            bail!("something else was read than was written");
        }
        self.end(log, number, SHORT)
    }

    /// Whether a write is read at the snapshot after it, which may be gone.
    fn reads(&self, batch: &Batch, snapshot: SeqNo) -> Result<bool> {
        let key = batch.second_key(self.alloc)?;
        match self.tree.get(self.rt, key.as_slice(), snapshot) {
            Ok(found) => Ok(batch.is_read(found)),
            Err(Error::SnapshotTooOld) => Ok(true),
            Err(error) => Err(error.into()),
        }
    }

    fn flush(&self, log: &mut File) -> Result<()> {
        let snapshot = self.begin(log, "flush")?;
        self.tree
            .flush_active_memtable(self.rt, snapshot)
            .map_err(|refused| refused.0)?;
        self.end(log, snapshot, LONG)
    }

    fn clear(&self, log: &mut File, turn: u64) -> Result<()> {
        if turn % TURNS_OF_CLEAR != TURNS_OF_CLEAR - 1 {
            thread::sleep(self.rt, Duration::from_millis(LONG));
            return Ok(());
        }
        self.begin(log, "clear")?;
        let number = self.tree.clear(self.rt)?;
        self.end(log, number, LONG)
    }

    fn compact(&self, log: &mut File) -> Result<()> {
        let snapshot = self.begin(log, "compact")?;
        self.tree
            .compact_gated(self.rt, &Major::new(u64::MAX), snapshot, &RunJob)?;
        self.end(log, snapshot, LONG)
    }
}
