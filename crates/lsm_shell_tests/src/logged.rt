// What is printed with a log.
use crate::shells::{arguments_of, ends};
use std::fs::{self, File, Files};
use std::io::{self, Read};
use std::test::Fail;

/// What is told of a folder in which record 0 counts, where it is opened without a log.
const HAS_0: &[u8] =
    b"log/0: open: a record of a write log, which only a logged tree reads: give `logged` before the folder\n";

/// The same of record 5.
const HAS_5: &[u8] =
    b"log/5: open: a record of a write log, which only a logged tree reads: give `logged` before the folder\n";

/// The same of record 7.
const HAS_7: &[u8] =
    b"log/7: open: a record of a write log, which only a logged tree reads: give `logged` before the folder\n";

/// What is told of record 7 with a log, where it is damaged.
const BAD_7: &[u8] = b"log/7: open: the files can't be used, or an earlier outcome is unknown\n";

/// What is told of a name in the log that is none of a record, with a log and without.
const ODD: &[u8] =
    b"log/x: open: isn't a file of a tree: the files can't be used, or an earlier outcome is unknown\n";

const REFUSED: &[u8] = b"error 4 Unrecoverable\n";

/// A folder with a record that counts is opened with a log alone. Once a flush has passed the record, it is opened without. What
/// is damaged of a log is told, and none of it is removed.
#[test]
fn records_in_a_folder_are_spared(rt: HostRuntime) -> Result<(), Fail> {
    let alloc = rt.alloc();
    let folder = "lsm_shell_logged";
    let _ = fs::remove_dir_all(&rt, folder);
    let plain = arguments_of(alloc, folder)?;
    let logged = arguments_of(alloc, "logged lsm_shell_logged")?;
    let flushed = b"value x\nflushed 50 installed\nvalue x\n".as_slice();
    let table: [(&[String], &[u8], (&[u8], &[u8], u8)); 4] = [
        (&logged, b"put a x\n", (b"ok 0\n", b"", 0)),
        (&plain, b"put a y\nflush 9\n", (REFUSED, HAS_0, 1)),
        (&logged, b"get a\nflush 0\nget a\n", (flushed, b"", 0)),
        (&plain, b"get a\n", (b"value x\n", b"", 0)),
    ];
    for (arguments, input, told) in table {
        assert!(rt;
            ends(&rt, alloc, Some(arguments), input, told),
            "at {input:?}"
        );
    }
    fs::create_dir_all(&rt, "lsm_shell_logged/log")?;
    fs::write(&rt, "lsm_shell_logged/log/7", b"x")?;
    let input = b"get a\n".as_slice();
    assert!(rt; ends(&rt, alloc, Some(&logged), input, (REFUSED, BAD_7, 1)));
    assert!(rt; ends(&rt, alloc, Some(&plain), input, (REFUSED, HAS_7, 1)));
    fs::rename(&rt, "lsm_shell_logged/log/7", "lsm_shell_logged/log/x")?;
    for arguments in [&logged, &plain] {
        assert!(rt; ends(&rt, alloc, Some(arguments), input, (REFUSED, ODD, 1)));
    }
    fs::remove_dir_all(&rt, folder)?;
    Ok(())
}

/// Asks to reopen a tree once a record lies in its folder.
#[derive(Drop)]
struct Dropping<'a, R> {
    rt: &'a R,
    turn: u8,
}

impl<R: Files<File = File>> Read for Dropping<'_, R> {
    fn read(&mut self, buf: &mut [u8]) -> io::Result<usize> {
        self.turn = self.turn.saturating_add(1);
        match self.turn {
            1 => b"put a x\n".as_slice().read(buf),
            2 => {
                fs::create_dir_all(self.rt, "lsm_shell_reopened/log")?;
                fs::write(self.rt, "lsm_shell_reopened/log/5", b"x")?;
                b"reopen\nget a\n".as_slice().read(buf)
            }
            _ => Ok(0),
        }
    }
}

#[test]
fn a_folder_with_records_is_not_reopened(rt: HostRuntime) -> Result<(), Fail> {
    let alloc = rt.alloc();
    let folder = "lsm_shell_reopened";
    let _ = fs::remove_dir_all(&rt, folder);
    let arguments = arguments_of(alloc, folder)?;
    let told = (
        b"ok 0\nerror 4 Unrecoverable\nerror 0 Usage\n".as_slice(),
        HAS_5,
        0,
    );
    let input = Dropping { rt: &rt, turn: 0 };
    assert!(rt; ends(&rt, alloc, Some(&arguments), input, told));
    fs::remove_dir_all(&rt, folder)?;
    Ok(())
}
