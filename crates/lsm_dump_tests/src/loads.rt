// Which lines a load refuses, and what it leaves in a folder.
use lsm_dump_parts::run_dump;
use lsm_load_parts::{LineFault, LoadError, read_export, run_load};
use std::alloc::Global;
use std::fs::{self, File, Files};
use std::test::Fail;

const HEADER: &str = "VERSION=3\nformat=bytevalue\ntype=btree\nHEADER=END\n";

/// The number of the line for which an export is refused, and what is wrong with it.
fn refused_for(alloc: Global, text: &str) -> Result<Option<(u64, LineFault)>, Fail> {
    match read_export(alloc, text.as_bytes()) {
        Ok(_) => Ok(None),
        Err(LoadError::Line { number, fault }) => Ok(Some((number, fault))),
        Err(error) => Err(error.into()),
    }
}

#[test]
fn headers_are_refused(rt: HostRuntime) -> Result<(), Fail> {
    let alloc = rt.alloc();
    let rows = [
        ("", 1, LineFault::NoVersion),
        (" 61\n 62\nDATA=END\n", 1, LineFault::NoVersion),
        ("VERSION=2\n", 1, LineFault::NoVersion),
        ("VERSION=3\n", 2, LineFault::NoEnd),
        ("VERSION=3\nformat=print\n", 2, LineFault::OtherFormat),
        (
            "VERSION=3\nformat=bytevalue\ntype=recno\n",
            3,
            LineFault::OtherType,
        ),
        (
            "VERSION=3\nformat=bytevalue\n 61\n 62\n",
            3,
            LineFault::NoHeader,
        ),
        ("VERSION=3\nformat\n", 2, LineFault::NoHeader),
        (
            "VERSION=3\ntype=btree\nHEADER=END\n",
            3,
            LineFault::NoFormat,
        ),
    ];
    for (text, number, fault) in rows {
        assert_eq!(rt; refused_for(alloc, text)?, Some((number, fault)), "{text}");
    }
    Ok(())
}

#[test]
fn pairs_are_refused(rt: HostRuntime) -> Result<(), Fail> {
    let alloc = rt.alloc();
    let rows = [
        ("", 5, LineFault::NoEnd),
        (" 6", 5, LineFault::OddDigits),
        (" 6g\n", 5, LineFault::NoDigit),
        ("61\n 62\nDATA=END\n", 5, LineFault::NoSpace),
        (" 61\n", 6, LineFault::NoEnd),
        (" 61\n 7\nDATA=END\n", 6, LineFault::OddDigits),
        (" 61\nDATA=END\n", 6, LineFault::NoValue),
        (" 61\n 62\n", 7, LineFault::NoEnd),
        (" 61\n 62\nDATA=EN", 7, LineFault::NoSpace),
        (" 61\n 62\n 61\n 63\nDATA=END\n", 8, LineFault::Twice),
        ("DATA=END\nVERSION=3\n", 6, LineFault::Behind),
    ];
    for (pairs, number, fault) in rows {
        let text = format!(in alloc; "{HEADER}{pairs}")?;
        assert_eq!(rt;
            refused_for(alloc, text.as_str())?,
            Some((number, fault)),
            "{pairs}"
        );
    }
    Ok(())
}

/// An export of a key of so many bytes, each of which is 0.
fn export_of_zeros(alloc: Global, count: usize) -> Result<String, Fail> {
    let mut text = format!(in alloc; "{HEADER} ")?;
    for _ in 0..count {
        text.push_str("00")?;
    }
    text.push_str("\n \nDATA=END\n")?;
    Ok(text)
}

#[test]
fn long_keys_are_refused(rt: HostRuntime) -> Result<(), Fail> {
    let alloc = rt.alloc();
    let longest = export_of_zeros(alloc, 65_535)?;
    assert_eq!(rt; refused_for(alloc, longest.as_str())?, None);
    let longer = export_of_zeros(alloc, 65_536)?;
    assert_eq!(rt;
        refused_for(alloc, longer.as_str())?,
        Some((5, LineFault::TooLong))
    );
    Ok(())
}

const FOLDER: &str = "lsm_load_test";

/// The status with which a load of this text ends, what it prints, and its errors.
fn load<R: Files<File = File> + Alloc + Clone + Drop>(
    rt: &R,
    alloc: Global,
    words: &[&str],
    text: &str,
) -> Result<(u8, Vec<u8>, Vec<u8>), Fail> {
    let mut list = Vec::new(alloc);
    for word in words {
        list.push(String::from_str(alloc, word)?)?;
    }
    let (mut output, mut errors) = (Vec::new(alloc), Vec::new(alloc));
    let status = run_load(
        rt,
        alloc,
        Some(&list),
        text.as_bytes(),
        &mut output,
        &mut errors,
    );
    Ok((status, output, errors))
}

/// The export of the folder.
fn dump<R: Files<File = File> + Alloc + Clone + Drop>(
    rt: &R,
    alloc: Global,
) -> Result<Vec<u8>, Fail> {
    let words = [
        String::from_str(alloc, FOLDER)?,
        String::from_str(alloc, "--export")?,
    ];
    let (mut output, mut errors) = (Vec::new(alloc), Vec::new(alloc));
    match run_dump(rt, alloc, Some(&words), &mut output, &mut errors) {
        0 => Ok(output),
        _ => Err("the folder isn't exported".into()),
    }
}

#[test]
fn a_folder_is_loaded_once(rt: HostRuntime) -> Result<(), Fail> {
    let alloc = rt.alloc();
    let _ = fs::remove_dir_all(&rt, FOLDER);
    let first = format!(in alloc; "{HEADER} 612062\n \n 62\n ff\nDATA=END\n")?;
    let (status, output, errors) = load(&rt, alloc, &[FOLDER], first.as_str())?;
    assert_eq!(rt; status, 0);
    assert_eq!(rt; output.as_slice(), b"loaded 2 pairs\n".as_slice());
    assert!(rt; errors.is_empty());

    let second = format!(in alloc; "{HEADER} 63\n \nDATA=END\n")?;
    let (status, output, errors) = load(&rt, alloc, &[FOLDER], second.as_str())?;
    assert_eq!(rt; status, 1);
    assert!(rt; output.is_empty());
    assert_eq!(rt;
        errors.as_slice(),
        b"lsm_load: lsm_load_test: isn't empty, and a load makes a new tree\n".as_slice()
    );
    assert_eq!(rt; dump(&rt, alloc)?.as_slice(), first.as_bytes());
    Ok(())
}

const ABSENT: &str = "lsm_load_absent";

#[test]
fn nothing_is_made_of_a_damaged_export(rt: HostRuntime) -> Result<(), Fail> {
    let alloc = rt.alloc();
    let cut = format!(in alloc; "{HEADER} 61\n 62\n")?;
    let (status, output, errors) = load(&rt, alloc, &[ABSENT], cut.as_str())?;
    assert_eq!(rt; status, 1);
    assert!(rt; output.is_empty());
    assert_eq!(rt;
        errors.as_slice(),
        b"lsm_load: line 7: the input ends before DATA=END\n".as_slice()
    );
    assert!(rt; fs::read_dir(&rt, ABSENT).is_err());
    Ok(())
}

#[test]
fn other_arguments_are_refused(rt: HostRuntime) -> Result<(), Fail> {
    let alloc = rt.alloc();
    let rows: [&[&str]; 4] = [&[], &[""], &["--force"], &["a", "b"]];
    for words in rows {
        let (status, output, errors) = load(&rt, alloc, words, "")?;
        assert_eq!(rt; status, 2, "{words:?}");
        assert!(rt; output.is_empty() && !errors.is_empty(), "{words:?}");
    }
    Ok(())
}
