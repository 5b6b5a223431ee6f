// Tables that are written and on the disk.
ghost use Rattle.std.specs.Prelude.{◌≡◌, ◌+◌, ◌≤◌, ◌⊎◌, length, IfOk, IfErr};
ghost use Rattle.lsm_store.specs.World.{LeavesOnly};
ghost use Rattle.lsm_store.specs.Synced.{IsBeside, KeepsOthers};
ghost use Rattle.lsm_tables.specs.Image.{IsTable, image};
ghost use Rattle.lsm_tables.specs.Cutting.{IsWritable};
ghost use Rattle.lsm_manifest.specs.Names.{table_name};
ghost use Rattle.lsm_commit.specs.Stored.{IsTableOnDisk, AreOnDisk, CountsFaults};
ghost use Rattle.lsm_commit.specs.Writing.{HoldEntries, WritesFrom, RefusesWriting};

use crate::contents::write_file;
use bytes::Bytes;
use lsm_below::{Error, TableId};
use lsm_manifest::names_are_apart;
use lsm_store::Store;
use lsm_tables::{Entries, Table, TableError, encode_parts, no_image_begins_another, split_table};
use lsm_versions::{LIMIT, cut_tables_are_runs};
use std::alloc::Global;

/// A table ends as soon as its entries have so many bytes: 64 MiB.
const TABLE_TARGET: u64 = 67_108_864;

/// The table of a file that was just written: its entries share the bytes.
fn table_of(
    alloc: Global,
    id: TableId,
    made_at: u64,
    entries: &Entries<'_>,
    file: Bytes,
) -> Result<Table, Error>
    requires table { IsTable entries.now }
    requires file { file ≡ image made_at entries.now }
    ensures table { IfOk result (λ t. t ≡ record { id = id; created_at = made_at; entries = entries.now }) }
    ensures memory { IfErr result (λ e. e ≡ Error.OutOfMemory) }
{
    no_image_begins_another();
    match Table::recover(alloc, id, file) {
        Ok(table) => Ok(table),
        Err(TableError::OutOfMemory) => Err(Error::OutOfMemory),
        Err(TableError::BadTable) => unreachable!(),
    }
}

/// Writes the file of a table under an id, syncs it, and returns the table, which shares the bytes of the file; its
/// entries take `held` bytes there. The cost is linear in the bytes.
///
/// # Errors
///
/// `OutOfMemory` where a growth was refused, `Store` where the store failed: of the table's file a crash may then leave
/// anything, and each other name is as it was.
fn write_table<S: Store>(
    alloc: Global,
    store: &mut S,
    id: TableId,
    made_at: u64,
    entries: &Entries<'_>,
    held: u64,
) -> Result<Table, Error>
    requires { IsTable entries.now }
    ensures table { IfOk result (λ t. t ≡ record { id = id; created_at = made_at; entries = entries.now }) }
    ensures on_disk { S.tells → IfOk result (IsTableOnDisk (S.world store.new)) }
    ensures keeps { S.tells → KeepsOthers (table_name id) (S.world store.old) (S.world store.new) }
    ensures any_moment { S.tells → LeavesOnly (S.world store.old) (S.world store.new) (IsBeside (table_name id) (S.world store.old)) }
    ensures only { IfErr result (λ e. (e ≡ Error.OutOfMemory) ⊎ (e ≡ Error.Store)) }
    ensures counts { CountsFaults (S.world store.old) (S.world store.new) result }
{
    let file = Bytes::from_vec(encode_parts(alloc, made_at, entries, held)?)?;
    write_file(store, id, &file)?;
    table_of(alloc, id, made_at, entries, file)
}

/// Writes tables that hold these entries, made at this moment, under the ids from `next` on, one after the other: of
/// their files one at a time is in memory, made of the entries where they stand. No entries: no tables. The cost is linear
/// in the bytes.
///
/// # Errors
///
/// `OutOfNumbers` where the next id is 2^63 or more, `OutOfMemory` where a growth was refused, `Store` where the store
/// failed. Some tables may then have been written, and their ids are used.
pub fn write_tables<S: Store>(
    alloc: Global,
    store: &mut S,
    next: &mut TableId,
    made_at: u64,
    entries: &Entries<'_>,
) -> Result<Vec<Table>, Error>
    requires { IsWritable entries.now }
    ensures tables { IfOk result (λ tables. HoldEntries made_at entries.now next.old next.new tables.items) }
    ensures rises { next.old ≤ next.new }
    ensures draws { next.new ≤ next.old + length entries.now }
    ensures on_disk { S.tells → IfOk result (λ tables. AreOnDisk (S.world store.new) tables.items) }
    ensures files { S.tells → WritesFrom next.old (S.world store.old) (S.world store.new) }
    ensures refuses { RefusesWriting result next.new (S.world store.old) (S.world store.new) }
{
    names_are_apart();
    cut_tables_are_runs();
    let mut tables = Vec::new(alloc);
    let mut rest = entries.copy();
    while !rest.is_empty() {
        let id = *next;
        if id >= LIMIT {
            return Err(Error::OutOfNumbers);
        }
        let (first, behind, held) = split_table(&rest, TABLE_TARGET);
        *next = id + 1;
        tables.push(write_table(alloc, store, id, made_at, &first, held)?)?;
        rest = behind;
    }
    Ok(tables)
}
