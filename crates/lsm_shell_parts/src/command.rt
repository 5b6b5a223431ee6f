// What a line asks.
ghost use Rattle.std.specs.Prelude.{◌≡◌, IfOk, map, option_map};
ghost use Rattle.lsm_shell_parts.specs.Command.{command_of, command_of_words, command_with, read_with, plain_with, compaction_of, snapshot_of};
ghost use Rattle.lsm_shell_parts.specs.Spelling.{IsSpelledBy};

use crate::bounds::{parse_excluded, parse_included, parse_prefix};
use crate::verb::{Verb, verb_of};
use crate::word::split_words;
use bytes::Bytes;
use lsm_below::{SeqNo, UserKey, UserValue, parse_number};
use std::alloc::{AllocError, Global};
use std::ops::Bound;

/// How a tree is to be compacted.
#[derive(Clone, Copy)]
pub enum Plan {
    /// Levels that are over their target go into the next one.
    Leveled,
    /// All tables go into the last level.
    Major,
    /// Tables go that are past a limit of bytes, or are older than these seconds, 0 for any age.
    Fifo(u64, u64),
}

/// What a line asks.
#[derive(Drop)]
pub enum Command {
    /// Give the key this value.
    Put(UserKey, UserValue),
    /// Remove the key.
    Del(UserKey),
    /// Remove a key of which at most one value was ever written.
    Weak(UserKey),
    /// Read the key, at a snapshot if one is named.
    Get(UserKey, Option<SeqNo>),
    /// Read the keys within bounds, at a snapshot if one is named.
    Range(Bound<UserKey>, Bound<UserKey>, Option<SeqNo>),
    /// Read the keys that begin so, at a snapshot if one is named.
    Prefix(UserKey, Option<SeqNo>),
    /// Seal the memtable.
    Rotate,
    /// Flush it and what is sealed, at a watermark.
    Flush(SeqNo),
    /// Compact so, at a watermark.
    Compact(Plan, SeqNo),
    /// Drop the tables that lie within bounds.
    DropRange(Bound<UserKey>, Bound<UserKey>),
    /// Clear the tree.
    Clear,
    /// Set the moment, in nanoseconds.
    Now(u64),
    /// Count tables, runs, sealed memtables, entries and bytes.
    Stats,
    /// Crash the store.
    Crash,
    /// Open the tree again from its store.
    Reopen,
}

/// What a line asks. None: nothing that the shell knows.
pub fn parse(alloc: Global, line: &[u8]) -> Result<Option<Command>, AllocError>
    ensures value { IfOk result (λ found. found ≡ command_of line.now) }

    // So it is the one command that the line spells.
    ensures spelled { IfOk result (IsSpelledBy line.now) }
{
    match split_words(alloc, line)? {
        Some(words) => parse_words(alloc, &words),
        None => Ok(None),
    }
}

fn parse_words(alloc: Global, words: &[&[u8]]) -> Result<Option<Command>, AllocError>
    ensures { IfOk result (λ found. found ≡ command_of_words (map (λ word. word.now) words.now)) }
{
    let [first, words @ ..] = words else {
        return Ok(None);
    };
    match verb_of(first) {
        Some(verb) => parse_with(alloc, verb, words),
        None => Ok(None),
    }
}

/// The snapshot that words name: none, or a number.
fn snapshot_of(words: &[&[u8]]) -> Option<Option<SeqNo>>
    ensures { result ≡ snapshot_of (map (λ word. word.now) words.now) }
{
    match words {
        [] => Some(None),
        [word] => parse_number(word).map(Some),
        _ => None,
    }
}

/// What a plan and numbers after it ask.
fn parse_compaction(plan: Verb, words: &[&[u8]]) -> Option<Command>
    ensures { result ≡ compaction_of plan (map (λ word. word.now) words.now) }
{
    let (plan, last) = match (plan, words) {
        (Verb::Leveled, [last]) => (Plan::Leveled, last),
        (Verb::Major, [last]) => (Plan::Major, last),
        (Verb::Fifo, [limit, ttl, last]) => {
            (Plan::Fifo(parse_number(limit)?, parse_number(ttl)?), last)
        }
        _ => return None,
    };
    Some(Command::Compact(plan, parse_number(last)?))
}

/// What a word asks with the words after it.
fn parse_with(alloc: Global, verb: Verb, words: &[&[u8]]) -> Result<Option<Command>, AllocError>
    ensures { IfOk result (λ found. found ≡ command_with verb (map (λ word. word.now) words.now)) }
{
    match (verb, words) {
        (Verb::Put, [key, value]) => {
            let value = Bytes::copy_from_slice(alloc, value)?;
            Ok(Some(Command::Put(Bytes::copy_from_slice(alloc, key)?, value)))
        }
        (Verb::Del, [key]) => Ok(Some(Command::Del(Bytes::copy_from_slice(alloc, key)?))),
        (Verb::Weak, [key]) => Ok(Some(Command::Weak(Bytes::copy_from_slice(alloc, key)?))),
        (Verb::Drop, [low, high]) => {
            let low = parse_included(alloc, low)?;
            Ok(Some(Command::DropRange(low, parse_included(alloc, high)?)))
        }
        (Verb::Get | Verb::Range | Verb::Prefix, _) => parse_read(alloc, verb, words),
        _ => Ok(parse_plain(verb, words)),
    }
}

/// The same of a read.
fn parse_read(alloc: Global, verb: Verb, words: &[&[u8]]) -> Result<Option<Command>, AllocError>
    ensures { IfOk result (λ found. found ≡ read_with verb (map (λ word. word.now) words.now)) }
{
    match (verb, words) {
        (Verb::Get, [key, at @ ..]) => match snapshot_of(at) {
            Some(at) => Ok(Some(Command::Get(Bytes::copy_from_slice(alloc, key)?, at))),
            None => Ok(None),
        },
        (Verb::Range, [low, high, at @ ..]) => match snapshot_of(at) {
            Some(at) => {
                let low = parse_included(alloc, low)?;
                Ok(Some(Command::Range(low, parse_excluded(alloc, high)?, at)))
            }
            None => Ok(None),
        },
        (Verb::Prefix, [prefix, at @ ..]) => match snapshot_of(at) {
            Some(at) => Ok(Some(Command::Prefix(parse_prefix(alloc, prefix)?, at))),
            None => Ok(None),
        },
        _ => Ok(None),
    }
}

/// The same of words that name no key.
fn parse_plain(verb: Verb, words: &[&[u8]]) -> Option<Command>
    ensures { result ≡ plain_with verb (map (λ word. word.now) words.now) }
{
    match (verb, words) {
        (Verb::Rotate, []) => Some(Command::Rotate),
        (Verb::Flush, [watermark]) => parse_number(watermark).map(Command::Flush),
        (Verb::Compact, [plan, numbers @ ..]) => parse_compaction(verb_of(plan)?, numbers),
        (Verb::Clear, []) => Some(Command::Clear),
        (Verb::Now, [moment]) => parse_number(moment).map(Command::Now),
        (Verb::Stats, []) => Some(Command::Stats),
        (Verb::Crash, []) => Some(Command::Crash),
        (Verb::Reopen, []) => Some(Command::Reopen),
        _ => None,
    }
}
