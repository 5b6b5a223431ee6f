// The bytes of this process in memory.
use anyhow::{Context, Result, bail};
use std::fs;
use std::rt::Files;

/// Where the system tells the sizes of a process: in pages, all of it first, and then what is in memory.
const SIZES: &str = "/proc/self/statm";

/// The bytes of a page, on the processors that the program is built for.
const PAGE: u64 = 4_096;

/// The bytes of this process that are in memory.
pub fn resident_bytes<R: Files + AllocGlobal>(rt: &R) -> Result<u64> {
    let sizes = fs::read_to_string(rt, SIZES).context(format_args!("reading {SIZES}"))?;
    let Some(pages) = sizes.split(' ').nth(1) else {
        bail!("{SIZES} tells no size in memory")
    };
    Ok(pages.parse::<u64>()?.saturating_mul(PAGE))
}
