// A folder, in which nothing is changed, and how a run ends.
use crate::images::image;
use lsm_dump_parts::run_dump;
use std::alloc::Global;
use std::fs::{self, File, Files};
use std::test::Fail;

const FOLDER: &str = "lsm_dump_test";

/// A folder with the files of a tree, and no subfolder of a log if it isn't to have one.
fn fill<R: Files<File = File> + Alloc + Clone + Drop>(rt: &R, alloc: Global) -> Result<(), Fail> {
    let _ = fs::remove_dir_all(rt, FOLDER);
    fs::create_dir(rt, FOLDER)?;
    fs::create_dir(rt, "lsm_dump_test/tables")?;
    for file in &image(alloc, true)? {
        if !file.name.starts_with("log/") {
            let path = format!(in alloc; "{FOLDER}/{}", file.name)?;
            fs::write(rt, path.as_str(), file.bytes.as_slice())?;
        }
    }
    Ok(())
}

/// How many names a folder has.
fn count_names<R: Files + Alloc + Clone + Drop>(rt: &R, folder: &str) -> Result<usize, Fail> {
    let mut count: usize = 0;
    for entry in fs::read_dir(rt, folder)? {
        let _entry = entry?;
        count = count.saturating_add(1);
    }
    Ok(count)
}

/// The status with which a run on these words ends, and how many bytes it writes to the output and to the errors.
fn ends<R: Files<File = File> + Alloc + Clone + Drop>(
    rt: &R,
    alloc: Global,
    words: &[&str],
) -> Result<(u8, bool, bool), Fail> {
    let mut list = Vec::new(alloc);
    for word in words {
        list.push(String::from_str(alloc, word)?)?;
    }
    let mut output = Vec::new(alloc);
    let mut errors = Vec::new(alloc);
    let status = run_dump(rt, alloc, Some(&list), &mut output, &mut errors);
    Ok((status, output.is_empty(), errors.is_empty()))
}

#[test]
fn a_folder_is_read(rt: HostRuntime) -> Result<(), Fail> {
    let alloc = rt.alloc();
    fill(&rt, alloc)?;
    let before = count_names(&rt, FOLDER)?;
    assert_eq!(rt; ends(&rt, alloc, &[FOLDER])?, (0, false, true));
    assert_eq!(rt; ends(&rt, alloc, &[FOLDER, "--check"])?, (0, false, true));
    assert_eq!(rt; ends(&rt, alloc, &["--json", FOLDER])?, (0, false, true));
    assert_eq!(rt; ends(&rt, alloc, &[FOLDER, "--export"])?, (0, false, true));
    assert_eq!(rt;
        ends(&rt, alloc, &[FOLDER, "--table", "9"])?,
        (1, false, true)
    );
    assert_eq!(rt; count_names(&rt, FOLDER)?, before);
    Ok(())
}

#[test]
fn what_is_left_out_is_told(rt: HostRuntime) -> Result<(), Fail> {
    let alloc = rt.alloc();
    fill(&rt, alloc)?;
    fs::write(&rt, "lsm_dump_test/tables/3", b"1")?;
    assert_eq!(rt; ends(&rt, alloc, &[FOLDER, "--export"])?, (1, false, false));
    assert_eq!(rt; ends(&rt, alloc, &[FOLDER, "--check"])?, (1, false, true));
    fs::remove_file(&rt, "lsm_dump_test/current")?;
    assert_eq!(rt; ends(&rt, alloc, &[FOLDER, "--export"])?, (1, false, false));
    assert_eq!(rt; ends(&rt, alloc, &[FOLDER, "--check"])?, (1, false, true));
    Ok(())
}

#[test]
fn arguments_are_refused(rt: HostRuntime) -> Result<(), Fail> {
    let alloc = rt.alloc();
    let rows: [(&[&str], u8); 14] = [
        (&["--help"], 0),
        (&[], 2),
        (&["a", "b"], 2),
        (&["--none", "a"], 2),
        (&["a", "--table"], 2),
        (&["a", "--table", "x"], 2),
        (&["a", "--table", "1", "--record", "1"], 2),
        (&["a", "--from", "k"], 2),
        (&["a", "--levels", "--json"], 2),
        (&["a", "--export", "--json"], 2),
        (&["a", "--export", "--check"], 2),
        (&["a", "--table", "1", "--from", "0x0"], 2),
        (&[""], 2),
        (&["lsm_dump_absent"], 1),
    ];
    for (words, status) in rows {
        let told = ends(&rt, alloc, words)?;
        assert_eq!(rt; told.0, status, "{words:?}");
        assert_eq!(rt; told.2, status == 0, "{words:?}");
    }
    Ok(())
}
