// How strategies are written down: names and values, as bytes.
ghost use Rattle.std.specs.Prelude.{◌≡◌, ◌<◌, ◌++◌, length, IfOk, OnOk, Option};
ghost use Rattle.std.specs.Int.{to_le_bytes};
ghost use Rattle.std.specs.List.{flat_map};
ghost use Rattle.lsm_pick.specs.Config.{ratio_bytes, ratios_bytes, leveled_config, fifo_config, flag_of};
ghost use Rattle.std.specs.Option.{unwrap_or};

use crate::Fifo;
use bytes::Bytes;
use lsm_below::{KvPair, UserValue};
use std::alloc::{AllocError, Global};

/// A pair of a name and a value of these bytes.
fn pair(alloc: Global, name: &'static [u8], value: &[u8]) -> Result<KvPair, AllocError>
    ensures { IfOk result (λ p. p ≡ (name.now, value.now)) }
{
    let value: UserValue = Bytes::copy_from_slice(alloc, value)?;
    Ok((Bytes::from_static(name), value))
}

fn push_ratios(out: &mut Vec<u8>, ratios: &[(u32, u32)]) -> Result<(), AllocError>
    ensures { OnOk result (out.new.items ≡ out.old.items ++ flat_map ratio_bytes ratios.now) }
{
    for ratio in ratios {
        out.extend_from_slice(&ratio.0.to_le_bytes())?;
        out.extend_from_slice(&ratio.1.to_le_bytes())?;
    }
    Ok(())
}

/// The count of the ratios, and each.
fn spelled_ratios(alloc: Global, ratios: &[(u32, u32)]) -> Result<Vec<u8>, AllocError>
    requires { length ratios.now < 256 }
    ensures { IfOk result (λ v. v.items ≡ ratios_bytes ratios.now) }
{
    let mut out = Vec::new(alloc);
    out.push(ratios.len() as u8)?;
    push_ratios(&mut out, ratios)?;
    Ok(out)
}

/// What `Leveled` is given: the threshold, the target and the ratios.
pub(crate) fn leveled_config(
    alloc: Global,
    threshold: u8,
    target: u64,
    ratios: &[(u32, u32)],
) -> Result<Vec<KvPair>, AllocError>
    requires { length ratios.now < 256 }
    ensures { IfOk result (λ v. v.items ≡ leveled_config (record { threshold = threshold; target = target; ratios = ratios.now })) }
{
    let policy = spelled_ratios(alloc, ratios)?;
    let mut pairs = Vec::new(alloc);
    pairs.push(pair(alloc, b"leveled_l0_threshold", &[threshold])?)?;
    pairs.push(pair(alloc, b"leveled_target_size", &target.to_le_bytes())?)?;
    pairs.push(pair(alloc, b"leveled_level_ratio_policy", &policy)?)?;
    Ok(pairs)
}

fn flag_of(ttl: Option<u64>) -> u8
    ensures { result ≡ flag_of ttl }
{
    match ttl {
        None => 0,
        Some(_) => 1,
    }
}

/// What `Fifo` is given: the limit, whether there is a time to live, and its seconds.
pub(crate) fn fifo_config(alloc: Global, fifo: &Fifo) -> Result<Vec<KvPair>, AllocError>
    ensures { IfOk result (λ v. v.items ≡ fifo_config fifo.entry.now) }
{
    let flag = flag_of(fifo.ttl_seconds);
    let seconds = fifo.ttl_seconds.unwrap_or(0);
    let mut pairs = Vec::new(alloc);
    pairs.push(pair(alloc, b"fifo_limit", &fifo.limit.to_le_bytes())?)?;
    pairs.push(pair(alloc, b"fifo_ttl", &[flag])?)?;
    pairs.push(pair(alloc, b"fifo_ttl_seconds", &seconds.to_le_bytes())?)?;
    Ok(pairs)
}
