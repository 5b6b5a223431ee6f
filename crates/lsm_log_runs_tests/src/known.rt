// What is known of a tree by what its calls replied.
use crate::shown::{ALL, Part, Table};
use crate::strategies::FIFO;
use lsm_log_runs::LogStep;
use lsm_runs::{Compacted, JobStep, Reply};
use lsm_state::Error;

/// What is known of a tree by what its calls replied.
#[derive(Clone, Copy, Debug)]
pub struct Known {
    /// What the calls that were acknowledged make of it.
    pub surely: Table,
    /// The same with the one batch or clear of unknown outcome, at its place.
    pub perhaps: Option<Table>,
    /// Whether an outcome is unknown, of that or of another commit: then no call may be acknowledged any more.
    pub shut: bool,
}

/// What a store shows once it is opened again.
#[derive(Clone, Copy, Debug, PartialEq, Eq)]
pub enum Told {
    /// What was acknowledged, and no outcome was unknown.
    Right,
    /// The same, without the batch or clear of unknown outcome.
    Lost,
    /// The same with it.
    Kept,
    /// The same; what is unknown makes no difference.
    Either,
    /// Something else.
    Wrong,
    /// A call replied what it can't.
    Misread,
    /// The store isn't opened again.
    Refused,
}

impl Told {
    pub fn is_well(self) -> bool {
        matches!(self, Told::Right | Told::Lost | Told::Kept | Told::Either)
    }
}

/// Whether the outcome of a commit is unknown after this reply.
fn is_unknown(reply: &Reply) -> bool {
    matches!(
        reply,
        Reply::Refused(Error::CommitUnknown) | Reply::RefusedActive(_, Error::CommitUnknown)
    )
}

/// Whether a batch or a clear that comes too late is answered as it should be.
fn is_shut(reply: &Reply) -> bool {
    matches!(reply, Reply::Refused(Error::Unrecoverable))
}

/// Whether a batch or a clear is acknowledged so.
fn is_acknowledged(step: &LogStep, reply: &Reply) -> bool {
    match step {
        LogStep::Write(_) => matches!(reply, Reply::Number(_)),
        _ => matches!(
            reply,
            Reply::Cleared(_) | Reply::Refused(Error::AfterCommit)
        ),
    }
}

impl Known {
    pub fn of(surely: Table) -> Known {
        Known {
            surely,
            perhaps: None,
            shut: false,
        }
    }

    fn acknowledged(self, table: Table) -> Known {
        Known {
            surely: table,
            ..self
        }
    }

    fn doubted(self, table: Table) -> Known {
        Known {
            perhaps: Some(table),
            ..self
        }
    }

    /// After a batch or a clear that makes this of the tree. None where it can't be answered so.
    fn committed(self, table: Table, step: &LogStep, reply: &Reply) -> Option<Known> {
        if self.shut {
            return is_shut(reply).then_some(self);
        }
        if is_acknowledged(step, reply) {
            return Some(self.acknowledged(table));
        }
        match reply {
            Reply::Refused(Error::CommitUnknown) => Some(self.doubted(table)),
            Reply::Refused(_) => Some(self),
            _ => None,
        }
    }

    /// After a drop of tables, which may have been done.
    fn dropped(self, part: &Part<'_>, reply: &Reply) -> Known {
        match reply {
            Reply::Compacted(Compacted::Installed)
            | Reply::Refused(Error::CommitUnknown | Error::AfterCommit) => {
                self.acknowledged(self.surely.without(part))
            }
            _ => self,
        }
    }

    /// After a read of these keys.
    fn listed(self, part: &Part<'_>, reply: &Reply) -> Option<Known> {
        match reply {
            Reply::Pairs(pairs) => {
                let pairs = pairs.as_slice();
                let perhaps = self.perhaps.is_some_and(|table| table.lists(part, pairs));
                (perhaps || self.surely.lists(part, pairs)).then_some(self)
            }
            _ => None,
        }
    }

    fn gotten(self, key: &[u8], reply: &Reply) -> Option<Known> {
        match reply {
            Reply::Value(value) => {
                let found = value.as_ref();
                let perhaps = self.perhaps.is_some_and(|table| table.allows(key, found));
                (perhaps || self.surely.allows(key, found)).then_some(self)
            }
            _ => None,
        }
    }

    fn replied(self, step: &LogStep, reply: &Reply) -> Option<Known> {
        match step {
            LogStep::Write(ops) => self.committed(self.surely.with(ops.as_slice()), step, reply),
            LogStep::Clear => self.committed(Table::EMPTY, step, reply),
            LogStep::DropRange(low, high) => Some(self.dropped(&Part::Between(low, high), reply)),
            // Which tables are dropped isn't told.
            LogStep::Compact(FIFO, _) | LogStep::AtSlot(_, JobStep::BeginCompaction(FIFO, _)) => {
                Some(self.dropped(&ALL, reply))
            }
            LogStep::Get(key, _) => self.gotten(key.as_slice(), reply),
            LogStep::Range(low, high, _) => self.listed(&Part::Between(low, high), reply),
            LogStep::Prefix(start, _) => self.listed(&Part::Beginning(start.as_slice()), reply),
            _ => Some(self),
        }
    }

    /// What is known after a step. None where it can't be answered so.
    pub fn behind(self, step: &LogStep, reply: &Reply) -> Option<Known> {
        let known = self.replied(step, reply)?;
        Some(Known {
            shut: known.shut || is_unknown(reply),
            ..known
        })
    }

    /// How what is read of all keys stands to what is known.
    pub fn tell(&self, reply: &Reply) -> Told {
        let Reply::Pairs(pairs) = reply else {
            return Told::Wrong;
        };
        let pairs = pairs.as_slice();
        let surely = self.surely.lists(&ALL, pairs);
        let perhaps = self.perhaps.map(|table| table.lists(&ALL, pairs));
        match (surely, perhaps) {
            (true, None) => Told::Right,
            (true, Some(false)) => Told::Lost,
            (true, Some(true)) => Told::Either,
            (false, Some(true)) => Told::Kept,
            (false, _) => Told::Wrong,
        }
    }

    /// What is known once this was found, where it isn't wrong.
    pub fn once(self, told: Told) -> Known {
        match (told, self.perhaps) {
            (Told::Kept, Some(table)) => Known::of(table),
            _ => Known::of(self.surely),
        }
    }
}
