// The outermost key of readers: the first one seen from an end.
ghost use Rattle.std.specs.Prelude.{◌≡◌, ◌≢◌, ◌+◌, ◌<◌, ◌≤◌, [], length, map, MatchOption, IfOk, OnErr};
ghost use Rattle.lsm_below.specs.Sorted.{Rises};
ghost use Rattle.lsm_iter.specs.Shown.{by_key};
ghost use Rattle.lsm_iter.specs.Left.{left_of, held_in, shown_list, end_item, Takes};
ghost use Rattle.lsm_iter.specs.Outermost.{standing, IsOutermost, ShowSame};
ghost use Rattle.lsm_iter.specs.declared.outermost.Standing.TheVariants.{Outside};

use crate::End;
use crate::cursor::Cursor;
use crate::sources::Reader;
use lsm_below::InternalValue;
use std::alloc::AllocError;
use std::cmp::Ordering;

/// How an entry stands to another one, seen from an end.
#[derive(Clone, Copy)]
pub(crate) enum Standing {
    /// Its key is nearer to the end.
    Outside,
    /// It has the same key, and is newer.
    Newer,
    /// It has the same key, and is not newer.
    Older,
    /// Its key is farther from the end.
    Inside,
}

/// How the second entry stands to the first one.
fn stands_to(end: End, entry: &InternalValue, other: &InternalValue) -> Standing
    ensures { result ≡ standing end entry.now other.now }
{
    let order = match end {
        End::Front => other.key.user_key.cmp(&entry.key.user_key),
        End::Back => entry.key.user_key.cmp(&other.key.user_key),
    };
    match order {
        Ordering::Less => Standing::Outside,
        Ordering::Equal => {
            if entry.key.seqno < other.key.seqno {
                Standing::Newer
            } else {
                Standing::Older
            }
        }
        Ordering::Greater => Standing::Inside,
    }
}

/// How an entry stands to the one at an end of a reader: outside, where that has none.
fn stands_at<'a, R: Reader<'a>>(end: End, reader: &R, other: &InternalValue) -> Standing
    ensures rises { Rises by_key (R.seen reader.now).left }
    ensures is { MatchOption (end_item end (R.seen reader.now).left) (result ≡ Outside) (λ e. result ≡ standing end e other.now) }
{
    match reader.peek(end) {
        Some(entry) => stands_to(end, entry, other),
        None => Standing::Outside,
    }
}

/// Of the readers up to this one the place of the one with the outermost key, where that of those before it is
/// known. Where two have one key, the older entry goes, which no step would show.
fn outer_of<'a, R: Reader<'a>>(
    end: End,
    readers: &mut [R],
    outer: Option<usize>,
    at: usize,
) -> Option<usize>
    requires at { at < length readers.old }
    requires outer { IsOutermost end (map R.seen readers.old) at outer }
    ensures outer { IsOutermost end (map R.seen readers.new) (at + 1) result }
    ensures same { ShowSame (map R.seen readers.old) (map R.seen readers.new) }
{
    let Some(entry) = readers[at].peek(end) else {
        return outer;
    };
    let Some(place) = outer else {
        return Some(at);
    };
    match stands_at(end, &readers[place], entry) {
        Standing::Outside => Some(at),
        Standing::Inside => Some(place),
        Standing::Newer => {
            readers[place].skip(end);
            Some(at)
        }
        Standing::Older => {
            readers[at].skip(end);
            Some(place)
        }
    }
}

/// The place of the only reader, if it has an entry: nothing is compared.
#[inline(always)]
fn only_at<'a, R: Reader<'a>>(end: End, readers: &[R]) -> Option<usize>
    requires { length readers.now ≡ 1 }
    ensures { IsOutermost end (map R.seen readers.now) 1 result }
{
    match readers[0].peek(end) {
        Some(_entry) => Some(0),
        None => None,
    }
}

/// The place of the reader with the outermost key, which no other one has. One comparison a reader.
#[inline(never)]
fn many_at<'a, R: Reader<'a>>(end: End, readers: &mut [R]) -> Option<usize>
    ensures outer { IsOutermost end (map R.seen readers.new) (length readers.new) result }
    ensures same { ShowSame (map R.seen readers.old) (map R.seen readers.new) }
{
    let mut outer = None;
    for at in 0..readers.len() {
        outer = outer_of(end, readers, outer, at);
    }
    outer
}

/// The place of the reader with the outermost key, which no other one has: one alone isn't compared.
#[inline(always)]
pub(crate) fn outermost_at<'a, R: Reader<'a>>(end: End, readers: &mut [R]) -> Option<usize>
    ensures outer { IsOutermost end (map R.seen readers.new) (length readers.new) result }
    ensures same { ShowSame (map R.seen readers.old) (map R.seen readers.new) }
{
    if readers.len() == 1 {
        return only_at(end, readers);
    }
    many_at(end, readers)
}

/// Takes the entry at this end of what cursors show. Refused only for want of memory, where something is left.
pub(crate) fn take_shown(
    end: End,
    cursors: &mut [Cursor],
) -> Result<Option<InternalValue>, AllocError>
    ensures takes { IfOk result (λ entry. Takes end (shown_list (left_of cursors.old)) entry (shown_list (left_of cursors.new))) }
    ensures held { held_in cursors.new ≤ held_in cursors.old }
    ensures err { OnErr result (shown_list (left_of cursors.old) ≢ []) }
{
    loop {
        let Some(at) = outermost_at(end, cursors) else {
            return Ok(None);
        };
        if let Some(entry) = cursors[at].take(end)? {
            return Ok(Some(entry));
        }
    }
}
