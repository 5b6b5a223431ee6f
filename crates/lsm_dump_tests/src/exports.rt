// An export of a tree, also of a damaged one, and its way back into one.
use crate::images::{Change, image, store_of};
use lsm_dump_parts::{Export, export_pairs};
use lsm_load_parts::{load_pairs, read_export};
use lsm_logged::Logged;
use lsm_state::{Config, MemStore};
use std::alloc::Global;
use std::test::Fail;

const HEADER: &str = "VERSION=3\nformat=bytevalue\ntype=btree\nHEADER=END\n";

/// The lines of an export.
fn text_of(alloc: Global, export: &Export) -> Result<Vec<u8>, Fail> {
    let mut text = Vec::new(alloc);
    export.write_to(alloc, &mut text)?;
    Ok(text)
}

/// The lines of an export of these pairs.
fn lines_of(alloc: Global, pairs: &str) -> Result<String, Fail> {
    Ok(format!(in alloc; "{HEADER}{pairs}DATA=END\n")?)
}

/// A line for each file that is left out.
fn left_out(alloc: Global, export: &Export) -> Result<String, Fail> {
    let mut text = String::new(alloc);
    for damage in &export.left_out {
        let (file, fault) = (&damage.file, &damage.fault);
        write!(text, "{file}: {fault}\n")?;
    }
    Ok(text)
}

/// The table a = z at 0, made at 0, whose sum is that of a = x and 2.
const OTHER_SUM: &[u8] =
    b"LSMT\0\0\0\0\0\0\0\0\x01\0\0\0\0\0\0\0\x01\0\0\0\0\0\0\0\0\0\0\x01\0\0\0az";

/// A change of a file of the tree, the pairs that are left and what is left out.
type Row = (&'static str, &'static [u8], &'static str, &'static str);

const ROWS: [Row; 6] = [
    ("other", b"1", " 62\n 79\n 63\n 79\n", ""),
    (
        "tables/4",
        b"1",
        " 62\n 79\n",
        "tables/4: is cut: it has 1 bytes\n",
    ),
    (
        "tables/3",
        OTHER_SUM,
        " 62\n 79\n 63\n 79\n",
        "tables/3: the sum differs: stored b72e25e2ac01463851bb09022af9675b, is b92e25e2ac01463851bb09022af9675b\n",
    ),
    (
        "log/2",
        b"LSML\x02\0\0\0\0\0\0\0\x02\0\0\0\x01\0\0\x01\0\0\0b",
        " 61\n 78\n 63\n 79\n",
        "log/2: is cut: operation 0, at byte 16, lacks 1 bytes\n",
    ),
    ("log/1", b"1", " 62\n 79\n 63\n 79\n", ""),
    // No version tells that this table doesn't count.
    (
        "v5",
        b"1",
        " 62\n 79\n 63\n 79\n",
        "v5: a checksum differs\ntables/7: is cut: it has 1 bytes\n",
    ),
];

#[test]
fn what_can_be_read_is_exported(rt: HostRuntime) -> Result<(), Fail> {
    let alloc = rt.alloc();
    let files = image(alloc, true)?;
    for (name, bytes, pairs, left) in ROWS {
        let mut store = store_of(alloc, &files, name, Change::Holds(bytes))?;
        let export = export_pairs(alloc, &mut store)?;
        let lines = lines_of(alloc, pairs)?;
        assert_eq!(rt;
            text_of(alloc, &export)?.as_slice(),
            lines.as_bytes(),
            "{name}"
        );
        assert_eq!(rt; left_out(alloc, &export)?.as_str(), left, "{name}");
    }
    Ok(())
}

#[test]
fn tables_without_current_are_exported(rt: HostRuntime) -> Result<(), Fail> {
    let alloc = rt.alloc();
    let mut store = store_of(alloc, &[], "tables/3", Change::Holds(OTHER_SUM))?;
    let export = export_pairs(alloc, &mut store)?;
    let lines = lines_of(alloc, " 61\n 7a\n")?;
    assert_eq!(rt; text_of(alloc, &export)?.as_slice(), lines.as_bytes());
    assert_eq!(rt;
        left_out(alloc, &export)?.as_str(),
        "current: is missing beside tables/3\n"
    );
    Ok(())
}

/// A new tree in memory in which these pairs are, whose log was flushed.
fn loaded(alloc: Global, text: &[u8]) -> Result<MemStore, Fail> {
    let pairs = read_export(alloc, text)?;
    let opened = Logged::open(alloc, Config::new(0, 0, 0), MemStore::new(alloc));
    let mut tree = opened.map_err(|(error, _)| error)?;
    let told = load_pairs(alloc, &mut tree, pairs);
    let store = tree.into_store();
    told?;
    Ok(store)
}

/// The export of a tree into which these lines were loaded.
fn there_and_back(alloc: Global, text: &[u8]) -> Result<Vec<u8>, Fail> {
    let mut store = loaded(alloc, text)?;
    let export = export_pairs(alloc, &mut store)?;
    if !export.left_out.is_empty() {
        return Err("something is left out".into());
    }
    text_of(alloc, &export)
}

#[test]
fn an_export_is_loaded_and_exported_again(rt: HostRuntime) -> Result<(), Fail> {
    let alloc = rt.alloc();
    // A key with a space, an empty key, an empty value, and a byte of 255.
    let rows = ["", " \n 00\n", " 612062\n \n 62\n ff\n ff\n 0a0d\n"];
    for pairs in rows {
        let lines = lines_of(alloc, pairs)?;
        let again = there_and_back(alloc, lines.as_bytes())?;
        assert_eq!(rt; again.as_slice(), lines.as_bytes(), "{pairs}");
    }
    Ok(())
}

#[test]
fn pairs_of_several_batches_are_loaded(rt: HostRuntime) -> Result<(), Fail> {
    let alloc = rt.alloc();
    let mut pairs = String::new(alloc);
    for number in 0..2_001 {
        write!(pairs, " {number:08x}\n {number:04x}\n")?;
    }
    let lines = lines_of(alloc, pairs.as_str())?;
    let again = there_and_back(alloc, lines.as_bytes())?;
    assert!(rt; again.as_slice() == lines.as_bytes());
    Ok(())
}
