// A slow answer: the newest entry of each key that counts, picked from all layers.

use crate::layers::{ACTIVE, Entry, LEFT, NEWEST, OLDER, RIGHT, SEALED, least_byte};
use crate::walks::{Shown, Text};
use lsm_state::{SeqNo, ValueType};
use std::alloc::{AllocError, Global};
use std::ops::RangeBounds;

/// The keys of all layers, in order.
const KEYS: [&str; 11] = ["a", "ab", "b", "c", "d", "e", "f", "g", "h", "i", "j"];

const LAYERS: [&[Entry]; 6] = [&NEWEST, &OLDER, &LEFT, &RIGHT, &SEALED, &ACTIVE];

/// The sequence number and the type of the newest entry of a key below a snapshot.
fn newest(key: &str, snapshot: SeqNo) -> Option<(SeqNo, ValueType)> {
    let mut found: Option<(SeqNo, ValueType)> = None;
    for rows in LAYERS {
        for (other, number, kind) in rows {
            let is_newer = found.is_none_or(|newest| newest.0 <= *number);
            if *other == key && *number < snapshot && is_newer {
                found = Some((*number, *kind));
            }
        }
    }
    found
}

/// What a snapshot shows within bounds.
pub fn shown_within(
    alloc: Global,
    lower: Text,
    upper: Text,
    snapshot: SeqNo,
) -> Result<Vec<Shown>, AllocError> {
    let mut shown = Vec::new(alloc);
    for key in KEYS {
        match newest(key, snapshot) {
            Some((number, ValueType::Value)) if (lower, upper).contains(&key) => {
                shown.push((key, least_byte(number)))?;
            }
            _ => {}
        }
    }
    Ok(shown)
}
