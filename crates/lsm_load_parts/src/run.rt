// The run of the program.
use crate::error::LoadError;
use crate::export::read_export;
use crate::load::load_folder;
use std::alloc::Global;
use std::fs::{File, Files};
use std::io::{Read, Write};

const SUCCESS: u8 = 0;

const FAULT: u8 = 1;

const WRONG_USAGE: u8 = 2;

const USAGE: &str = "usage: lsm_load FOLDER < EXPORT";

/// Writes the pairs of an export into a folder, and tells how many there are.
fn load<P, R>(rt: &P, alloc: Global, folder: &str, input: R) -> Result<usize, LoadError>
where
    P: Files<File = File> + Alloc + Clone + Drop,
    R: Read + Drop,
{
    let pairs = read_export(alloc, input)?;
    let count = pairs.len();
    load_folder(rt, alloc, folder, pairs)?;
    Ok(count)
}

fn report<W: Write, E: Write>(
    loaded: Result<usize, LoadError>,
    output: &mut W,
    errors: &mut E,
) -> u8 {
    match loaded {
        Ok(count) => match write!(output, "loaded {count} pairs\n") {
            Ok(()) => SUCCESS,
            Err(_) => FAULT,
        },
        Err(error) => {
            let _ = write!(errors, "lsm_load: {error}\n");
            FAULT
        }
    }
}

/// Reads an export to its end, writes its pairs into the new folder that the arguments name, and gives the status to end with: 0, 1
/// after a fault of the input, of the folder or of the output, and 2 where the arguments aren't one folder. `arguments` is None where one
/// of them is no text.
pub fn run_load<P, R, W, E>(
    rt: &P,
    alloc: Global,
    arguments: Option<&[String]>,
    input: R,
    output: &mut W,
    errors: &mut E,
) -> u8
where
    P: Files<File = File> + Alloc + Clone + Drop,
    R: Read + Drop,
    W: Write,
    E: Write,
{
    match arguments {
        Some([word]) if word.as_str() == "--help" => match write!(output, "{USAGE}\n") {
            Ok(()) => SUCCESS,
            Err(_) => FAULT,
        },
        Some([word]) if !word.is_empty() && !word.starts_with('-') => {
            report(load(rt, alloc, word.as_str(), input), output, errors)
        }
        _ => {
            let _ = write!(errors, "lsm_load: {USAGE}\n");
            WRONG_USAGE
        }
    }
}
