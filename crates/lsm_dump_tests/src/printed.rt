// What is printed of a tree, and which arguments are refused.
use crate::images::{Change, Held, image, store_of};
use lsm_dump_parts::{Bounds, Plan, Shown, Slice, View, bounds_of, show};
use lsm_state::MemStore;
use std::alloc::Global;
use std::test::Fail;

const ALL: Slice<'static> = Slice {
    from: None,
    to: None,
    limit: None,
};

fn shown(
    alloc: Global,
    store: &mut MemStore,
    view: View,
    is_json: bool,
    slice: Slice<'_>,
) -> Result<Shown, Fail> {
    let plan = Plan {
        folder: "",
        view,
        is_json,
        slice,
    };
    let bounds: Bounds = bounds_of(alloc, &plan.slice)?.ok_or("the keys are well-formed")?;
    Ok(show(alloc, store, &plan, &bounds)?)
}

/// What is shown of the tree in format 4.
fn shown_whole(alloc: Global, view: View, is_json: bool, slice: Slice<'_>) -> Result<Shown, Fail> {
    let files = image(alloc, true)?;
    let mut store = store_of(alloc, &files, "other", Change::Holds(b"1"))?;
    shown(alloc, &mut store, view, is_json, slice)
}

const DUMP: &str = "\
version 5, format 4, log_from 2

level\trun\ttable\tentries\ttombstones\tweak\tbytes\tnumbers\tmade at\tchecksum\tsum\tkeys
0\t0\t3\t1\t0\t0\t37\t0..0\t0\tb72e25e2ac01463851bb09022af9675b\tright\t\"a\" .. \"a\"
0\t0\t4\t2\t1\t0\t53\t0..1\t0\tf99977f44aada9534a6e1bfc7d869658\tright\t\"c\" .. \"c\"

record\twrites\tremovals\tbytes\tstate
1\t-\t-\t-\tbelow log_from, not read
2\t2\t1\t33\twhole

orphan\ttables/7
orphan\tv4
other\tother

total\t2 tables in 1 runs, 3 entries, 1 tombstones, 0 of them weak, 90 bytes
total\t1 records, 2 writes, 33 bytes; 1 records below log_from; 2 orphans; 0 faults
";

#[test]
fn a_tree_is_dumped(rt: HostRuntime) -> Result<(), Fail> {
    let told = shown_whole(rt.alloc(), View::Dump, false, ALL)?;
    assert_eq!(rt; told.text.as_str(), DUMP);
    assert!(rt; told.is_good);
    Ok(())
}

#[test]
fn entries_and_writes_are_listed(rt: HostRuntime) -> Result<(), Fail> {
    let alloc = rt.alloc();
    let rows = [
        (
            View::Table(4),
            ALL,
            "1\t\"c\"\t\"y\"\n0\t\"c\"\ttombstone\n",
        ),
        (
            View::Table(4),
            Slice {
                limit: Some(1),
                ..ALL
            },
            "1\t\"c\"\t\"y\"\n",
        ),
        (
            View::Table(4),
            Slice {
                to: Some("c"),
                ..ALL
            },
            "",
        ),
        (
            View::Table(3),
            Slice {
                from: Some("0x61"),
                ..ALL
            },
            "0\t\"a\"\t\"x\"\n",
        ),
        (View::Record(2), ALL, "\"b\"\t\"y\"\n\"a\"\ttombstone\n"),
        (View::Record(9), ALL, "log/9: is missing\n"),
        (View::Table(7), ALL, "tables/7: is cut: it has 1 bytes\n"),
        (View::Check, ALL, "opens\n"),
        (
            View::Levels,
            ALL,
            "L0   0 ||                                                                      || 2 tables, 90 bytes\nkeys    \"a\" .. \"c\"\nlog     1 records from 2 on, 1 below\n",
        ),
    ];
    for (view, slice, text) in rows {
        let told = shown_whole(alloc, view, false, slice)?;
        assert_eq!(rt; told.text.as_str(), text);
    }
    Ok(())
}

const OBJECT: &str =
    r#"{"table":4,"entries":[{"number":1,"key":{"text":"c"},"type":"value","value":{"text":"y"}},{"number":0,"key":{"text":"c"},"type":"tombstone"}]}
"#;

#[test]
fn entries_are_an_object(rt: HostRuntime) -> Result<(), Fail> {
    let told = shown_whole(rt.alloc(), View::Table(4), true, ALL)?;
    assert_eq!(rt; told.text.as_str(), OBJECT);
    Ok(())
}

/// What a check tells of the tree with one file changed.
fn checked(alloc: Global, files: &[Held], name: &str, bytes: &[u8]) -> Result<Shown, Fail> {
    let mut store = store_of(alloc, files, name, Change::Holds(bytes))?;
    shown(alloc, &mut store, View::Check, false, ALL)
}

#[test]
fn what_is_wrong_is_told(rt: HostRuntime) -> Result<(), Fail> {
    let alloc = rt.alloc();
    let files = image(alloc, true)?;
    let rows: [(&str, &[u8], &str); 3] = [
        (
            "log/2",
            b"LSML\x02\0\0\0\0\0\0\0\x02\0\0\0\x01\0\0\x01\0\0\0b",
            "log/2: is cut: operation 0, at byte 16, lacks 1 bytes\nrefused: error 4 Unrecoverable\n",
        ),
        (
            "log/x",
            b"",
            "log/x: is no name that a tree gives\nrefused: error 4 Unrecoverable\n",
        ),
        (
            "current",
            b"",
            "current: isn't of its form\ntables/7: is cut: it has 1 bytes\nrefused: error 7 InvalidHeader\n",
        ),
    ];
    for (name, bytes, text) in rows {
        let told = checked(alloc, &files, name, bytes)?;
        assert_eq!(rt; told.text.as_str(), text);
        assert!(rt; !told.is_good);
    }
    Ok(())
}

#[test]
fn folders_that_are_no_trees_are_told(rt: HostRuntime) -> Result<(), Fail> {
    let alloc = rt.alloc();
    let rows: [(&str, &str); 6] = [
        (
            "video.mp4",
            "video.mp4: begins as the versions of a tree do, which opening removes: move it away\n",
        ),
        (
            "v007",
            "v007: begins as the versions of a tree do, which opening removes: move it away\n",
        ),
        (
            "v7",
            "current: is missing beside v7: put it back from a copy\n",
        ),
        (
            "tables/3",
            "current: is missing beside tables/3: put it back from a copy\n",
        ),
        (
            "log/1",
            "current: is missing beside log/1: put it back from a copy\nlog/1: is cut: it has 1 bytes\n",
        ),
        (
            "replace.new",
            "replace.new: isn't a tree's, and opening removes it: move it away\n",
        ),
    ];
    for (name, faults) in rows {
        let told = checked(alloc, &[], name, b"1")?;
        let text = format!(in alloc; "{faults}refused: the folder is no tree's\n")?;
        assert_eq!(rt; told.text.as_str(), text.as_str());
        assert!(rt; !told.is_good);
    }
    let told = checked(alloc, &[], "v0", b"1")?;
    assert_eq!(rt; told.text.as_str(), "opens\n");
    Ok(())
}

/// The table a = z at 0, made at 0, whose sum is that of a = x and 2.
const OTHER_SUM: &[u8] =
    b"LSMT\0\0\0\0\0\0\0\0\x01\0\0\0\0\0\0\0\x01\0\0\0\0\0\0\0\0\0\0\x01\0\0\0az";

/// The entries b = 1 and a = 2 at 0, which aren't in order.
const DISORDER: &[u8] =
    b"LSMT\0\0\0\0\0\0\0\0\x02\0\0\0\0\0\0\0\x01\0\0\0\0\0\0\0\0\0\0\x01\0\0\0b1\x01\0\0\0\0\0\0\0\0\0\0\x01\0\0\0a2";

#[test]
fn damaged_tables_are_listed_as_far_as_they_are_read(rt: HostRuntime) -> Result<(), Fail> {
    let alloc = rt.alloc();
    let files = image(alloc, true)?;
    let rows = [
        (
            OTHER_SUM,
            "0\t\"a\"\t\"z\"\ntables/3: the sum differs: stored b72e25e2ac01463851bb09022af9675b, is b92e25e2ac01463851bb09022af9675b\n",
        ),
        (
            DISORDER,
            "0\t\"b\"\t\"1\"\ntables/3: has no entry, or one that isn't behind the one before it\n",
        ),
        // The second entry lacks its last byte.
        (
            DISORDER.get(..53).unwrap_or_default(),
            "0\t\"b\"\t\"1\"\ntables/3: is cut: entry 1, at byte 37, lacks 1 bytes\n",
        ),
    ];
    for (bytes, text) in rows {
        let mut store = store_of(alloc, &files, "tables/3", Change::Holds(bytes))?;
        let told = shown(alloc, &mut store, View::Table(3), false, ALL)?;
        assert_eq!(rt; told.text.as_str(), text);
        assert!(rt; !told.is_good);
    }
    Ok(())
}
