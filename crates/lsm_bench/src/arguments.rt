// What the program's arguments ask.
ghost use Rattle.std.specs.Prelude.{◌≡◌, ◌≤◌, [], false, None, IfOk, IsOk};

use crate::workloads::is_workload;
use anyhow::{Result, bail, ensure};

/// The greatest number of keys.
const MOST_KEYS: usize = 100_000_000;

/// Stands for no folder, where workloads are named after it.
const NO_FOLDER: &str = "-";

/// What a run does.
#[derive(Clone, Copy)]
pub struct Plan<'a> {
    /// How many keys each workload is on.
    pub keys: usize,
    /// Whether the lines have seconds.
    pub with_times: bool,
    /// Where the trees on the disk stand. Without it no workload has one.
    pub folder: Option<&'a str>,
    /// The workloads that are run. Without them, all are.
    pub rows: &'a [String],
}

impl Plan<'_> {
    /// Whether the workload of this name is run.
    pub fn has_row(&self, name: &str) -> bool {
        self.rows.is_empty() || self.rows.iter().any(|row| row.as_str() == name)
    }
}

/// What these arguments ask: how many keys, a folder or `-`, and names of workloads. Without arguments the run prints the same
/// on every machine.
pub fn parse_arguments(words: &[String]) -> Result<Plan<'_>>
    ensures none { words.now ≡ [] → IsOk result × IfOk result (λ plan. (plan.keys ≡ 1000) × ((plan.with_times ≡ false) × (plan.folder ≡ None))) }
    ensures keys { IfOk result (λ plan. (1 ≤ plan.keys) × (plan.keys ≤ MOST_KEYS)) }
{
    match words {
        [] => Ok(Plan {
            keys: 1_000,
            with_times: false,
            folder: None,
            rows: &[],
        }),
        [count] => parse_plan(count.as_str(), NO_FOLDER, &[]),
        [count, folder, rows @ ..] => parse_plan(count.as_str(), folder.as_str(), rows),
    }
}

/// A run with times on so many keys, with trees in a folder where there is one, of these workloads.
fn parse_plan<'a>(count: &str, folder: &'a str, rows: &'a [String]) -> Result<Plan<'a>>
    ensures { IfOk result (λ plan. (1 ≤ plan.keys) × (plan.keys ≤ MOST_KEYS)) }
{
    let keys = match count.parse::<usize>() {
        Ok(keys) if 1 <= keys && keys <= MOST_KEYS => keys,
        _ => bail!("N, the number of keys, is to be from 1 to {MOST_KEYS}"),
    };
    let has_names = rows.iter().all(|row| is_workload(row.as_str()));
    ensure!(has_names, "there is no such workload");
    Ok(Plan {
        keys,
        with_times: true,
        folder: if folder == NO_FOLDER {
            None
        } else {
            Some(folder)
        },
        rows,
    })
}
