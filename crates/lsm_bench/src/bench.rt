// The run of one workload after the other.
use crate::arguments::Plan;
use crate::lists::list;
use crate::merges::{clear_all, ingest, merge_all, mix};
use crate::orders::Orders;
use crate::places::{Folder, Memory, Place};
use crate::points::{fill, get, put};
use crate::resident::resident_bytes;
use crate::trees::AnyTree;
use crate::workloads::{FOLDER_WORKLOADS, Filling, Kind, Order, Row, WORKLOADS, Work};
use anyhow::{Context, Result, bail};
use lsm_tree::SeqNo;
use std::rt::{Clock, Files};
use std::sync::Wait;
use std::time::{Duration, Instant};

/// At this watermark a flush keeps what any snapshot sees.
const KEEP_ALL: SeqNo = 0;

const NO_TREE: &str = "no tree stands";

/// Takes a terminal to the start of its line, and erases the line.
const ERASE: &str = "\r\x1b[K";

/// Runs the workloads of the plan. A folder is cleared also where one of them fails. Its trees may be shared, so its store has
/// the runtime of the host, which threads may share.
pub fn run_workloads<R>(rt: &R, host: &HostRuntime, plan: Plan<'_>, is_watched: bool) -> Result<()>
where
    R: AllocGlobal + Clock + Eprint + Files + Print + Wait,
{
    let orders = Orders::new(rt.alloc(), plan.keys)?;
    let Some(path) = plan.folder else {
        return run_rows(rt, plan, is_watched, &orders, &Memory, &WORKLOADS);
    };
    let folder = Folder::take(host, path)?;
    run_rows(rt, plan, is_watched, &orders, &Memory, &WORKLOADS)?;
    let done = run_rows(rt, plan, is_watched, &orders, &folder, &FOLDER_WORKLOADS);
    let cleared = folder.clear().context(format_args!("clearing {path}"));
    done.and(cleared)
}

/// Runs the workloads of a table whose trees stand in one place. No tree is left.
fn run_rows<R, P: Place>(
    rt: &R,
    plan: Plan<'_>,
    is_watched: bool,
    orders: &Orders,
    place: &P,
    rows: &[Row],
) -> Result<()>
where
    R: AllocGlobal + Clock + Eprint + Files + Print + Wait,
{
    let mut bench = Bench {
        rt,
        plan,
        is_watched,
        orders,
        place,
        tree: None,
        stands: None,
        before: 0,
        start: Instant::now(rt)?,
    };
    let done = bench.run_all(rows);
    drop(bench);
    done
}

/// What came of a workload: how many operations it did, what they took, and a number that depends on every answer.
#[derive(Clone, Copy)]
struct Figures {
    ops: usize,
    time: Duration,
    check: u64,
}

/// What the workloads share whose trees stand in one place.
#[derive(Drop)]
struct Bench<'a, R, P: Place> {
    rt: &'a R,
    plan: Plan<'a>,
    /// Whether standard error is a terminal, which is told how far the run is.
    is_watched: bool,
    orders: &'a Orders,
    place: &'a P,
    /// The tree that the workload before has left.
    tree: Option<AnyTree<P::Store>>,
    /// What that is, where a workload may find it.
    stands: Option<(Kind, Filling)>,
    /// The bytes of this process before it was made.
    before: u64,
    /// When the workload began.
    start: Instant,
}

impl<R: AllocGlobal + Clock + Eprint + Files + Print, P: Place> Bench<'_, R, P> {
    /// Says which workload begins. A run goes on where the line can't be written.
    fn show(&self, number: usize, count: usize, name: &str) {
        if self.is_watched {
            let _ = eprint!(self.rt; "{ERASE}{number} of {count}: {name}");
        }
    }

    fn show_end(&self) {
        if self.is_watched {
            let _ = eprint!(self.rt; "{ERASE}");
        }
    }

    /// Prints the line of a workload, with its time where the plan wants times.
    fn print(&self, name: &str, figures: Figures) -> Result<()> {
        let keys = self.plan.keys;
        let Figures { ops, time, check } = figures;
        if self.plan.with_times {
            let (seconds, nanos) = (time.as_secs(), time.subsec_nanos());
            println!(self.rt; "{name} {keys} {ops} {seconds}.{nanos:09} {check}")?;
        } else {
            println!(self.rt; "{name} {keys} {ops} {check}")?;
        }
        Ok(())
    }

    /// Opens the tree that a store holds.
    fn open(&mut self, kind: Kind, store: P::Store) -> Result<()> {
        let tree = AnyTree::open(kind, self.rt.alloc(), store)?;
        drop(self.tree.replace(tree));
        Ok(())
    }

    /// The bytes of this process in memory, 0 in a run that has no line for them.
    fn resident_bytes(&self) -> Result<u64> {
        if !self.plan.with_times {
            return Ok(0);
        }
        resident_bytes(self.rt)
    }

    /// How many bytes a key the tree has added to this process.
    fn weigh(&self) -> Result<u64> {
        let added = self.resident_bytes()?.saturating_sub(self.before);
        Ok(added.checked_div(self.plan.keys as u64).unwrap_or(0))
    }

    /// Closes the tree, and opens it again. The workload begins with the opening.
    fn reopen(&mut self, kind: Kind) -> Result<()> {
        let Some(tree) = self.tree.take() else {
            bail!(NO_TREE)
        };
        let store = tree.into_store()?;
        self.start = Instant::now(self.rt)?;
        self.open(kind, store)?;
        Ok(())
    }
}

impl<R, P: Place> Bench<'_, R, P>
where
    R: AllocGlobal + Clock + Eprint + Files + Print + Wait,
{
    /// Runs the workloads of a table, and prints the line of each as it ends. Without times it leaves out what has no check.
    fn run_all(&mut self, rows: &[Row]) -> Result<()> {
        for (place, row) in rows.iter().enumerate() {
            let (name, work) = (row.0, row.4);
            if !self.plan.has_row(name) || matches!(work, Work::Weigh) && !self.plan.with_times {
                continue;
            }
            self.show(place.saturating_add(1), rows.len(), name);
            let done = self.run(row);
            self.show_end();
            let figures = done.context(format_args!("in {name}"))?;
            self.print(name, figures)?;
        }
        Ok(())
    }

    /// Does a workload, on the tree that the one before has left where it fits, else on a new one.
    fn run(&mut self, row: &Row) -> Result<Figures> {
        let (_, kind, filling, most, work) = *row;
        let ops = self.plan.keys.min(most);
        if self.stands != Some((kind, filling)) {
            // A tree with a log has a file for each key.
            let count = if kind == Kind::Logged {
                ops
            } else {
                self.plan.keys
            };
            self.make(kind, filling, count)?;
        }
        self.stands = match work {
            Work::Put(Order::Puts, _) if kind != Kind::Logged => Some((kind, Filling::Random)),
            Work::Flush => Some((kind, Filling::Flat)),
            Work::Put(..) | Work::Merge | Work::Ingest | Work::Mix | Work::Clear => None,
            Work::Get | Work::Miss | Work::List(..) | Work::Weigh => Some((kind, filling)),
            Work::Reopen | Work::ReopenAndGet => Some((kind, filling)),
        };
        self.start = Instant::now(self.rt)?;
        let check = self.work(kind, work, ops)?;
        let time = match work {
            Work::Weigh => Duration::ZERO,
            _ => self.start.elapsed(self.rt)?,
        };
        Ok(Figures { ops, time, check })
    }

    /// Makes a tree in an empty store, and fills it with so many keys.
    fn make(&mut self, kind: Kind, filling: Filling, count: usize) -> Result<()> {
        drop(self.tree.take());
        self.before = self.resident_bytes()?;
        self.open(kind, self.place.store(self.rt.alloc())?)?;
        let Some(tree) = &mut self.tree else {
            bail!(NO_TREE)
        };
        let ids = self.orders.first(Order::Puts, count);
        fill(self.rt, self.rt.alloc(), tree, filling, ids)?;
        Ok(())
    }

    /// Does so many operations, and returns their check.
    fn work(&mut self, kind: Kind, work: Work, ops: usize) -> Result<u64> {
        if matches!(work, Work::Reopen | Work::ReopenAndGet) {
            self.reopen(kind)?;
        }
        let (rt, alloc) = (self.rt, self.rt.alloc());
        let puts = self.orders.first(Order::Puts, ops);
        let reads = self.orders.first(Order::Reads, ops);
        let Some(tree) = &mut self.tree else {
            bail!(NO_TREE)
        };
        match work {
            Work::Put(order, batch) => {
                let ids = self.orders.first(order, ops);
                Ok(put(rt, alloc, tree, ids, batch)?)
            }
            Work::Get | Work::ReopenAndGet => Ok(get(rt, tree, reads, false)?),
            Work::Miss => Ok(get(rt, tree, reads, true)?),
            Work::List(way, span) => Ok(list(alloc, tree.state()?, way, span, reads)?),
            Work::Weigh => self.weigh(),
            Work::Flush => Ok(tree.flush(rt, KEEP_ALL)?),
            Work::Reopen => Ok(tree.state()?.approximate_len() as u64),
            Work::Merge => merge_all(tree),
            Work::Ingest => ingest(rt, alloc, tree, puts),
            Work::Mix => mix(rt, alloc, tree, puts),
            Work::Clear => clear_all(tree, ops),
        }
    }
}
