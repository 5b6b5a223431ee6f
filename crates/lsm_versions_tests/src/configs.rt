// Names and configurations, byte for byte.
use lsm_pick::{
    CompactionStrategy, DropRange, FIFO_COMPACTION_NAME, Fifo, LEVELED_COMPACTION_NAME, Leveled,
    Major, OwnedBounds,
};
use std::alloc::Global;
use std::ops::Bound;
use std::test::Fail;

/// Whether a strategy has this name, and these names with their values.
fn is_written(
    alloc: Global,
    strategy: &dyn CompactionStrategy,
    name: &str,
    config: &[(&str, &[u8])],
) -> Result<bool, Fail> {
    let pairs = strategy.get_config(alloc)?;
    if strategy.get_name() != name || pairs.len() != config.len() {
        return Ok(false);
    }
    for at in 0..config.len() {
        let (key, value) = config[at];
        if pairs[at].0.as_slice() != key.as_bytes() || pairs[at].1.as_slice() != value {
            return Ok(false);
        }
    }
    Ok(true)
}

const LEVELED: [(&str, &[u8]); 3] = [
    ("leveled_l0_threshold", &[4]),
    ("leveled_target_size", &[0, 0, 0, 4, 0, 0, 0, 0]),
    ("leveled_level_ratio_policy", &[1, 10, 0, 0, 0, 1, 0, 0, 0]),
];

/// With a limit of 258 bytes and no time to live.
const FIFO: [(&str, &[u8]); 3] = [
    ("fifo_limit", &[2, 1, 0, 0, 0, 0, 0, 0]),
    ("fifo_ttl", &[0]),
    ("fifo_ttl_seconds", &[0, 0, 0, 0, 0, 0, 0, 0]),
];

/// With no byte and no second.
const FIFO_ZERO: [(&str, &[u8]); 3] = [
    ("fifo_limit", &[0, 0, 0, 0, 0, 0, 0, 0]),
    ("fifo_ttl", &[1]),
    ("fifo_ttl_seconds", &[0, 0, 0, 0, 0, 0, 0, 0]),
];

#[test]
fn strategies_are_written_down(rt: HostRuntime) -> Result<(), Fail> {
    let alloc = rt.alloc();
    assert!(rt; LEVELED_COMPACTION_NAME == "LeveledCompaction");
    assert!(rt; FIFO_COMPACTION_NAME == "FifoCompaction");
    let leveled = Leveled::new(alloc)?;
    let written = is_written(alloc, &leveled, "LeveledCompaction", &LEVELED);
    drop(leveled);
    assert!(rt; written?);
    let fifo = Fifo::new(258, None, 9);
    assert!(rt; is_written(alloc, &fifo, "FifoCompaction", &FIFO)?);
    let fifo = Fifo::new(0, Some(0), 9);
    assert!(rt; is_written(alloc, &fifo, "FifoCompaction", &FIFO_ZERO)?);
    Ok(())
}

#[test]
fn others_have_names_alone(rt: HostRuntime) -> Result<(), Fail> {
    let alloc = rt.alloc();
    let all = DropRange::new(OwnedBounds {
        start: Bound::Unbounded,
        end: Bound::Unbounded,
    });
    assert!(rt; is_written(alloc, &Major::default(), "MajorCompaction", &[])?);
    assert!(rt; is_written(alloc, &all, "DropRangeCompaction", &[])?);
    Ok(())
}
