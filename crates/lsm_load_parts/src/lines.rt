// The lines of an export, read one by one.
use crate::error::{LineFault, LoadError};
use std::alloc::Global;
use std::io::BufRead;

/// The lines of an input, of which one is held.
#[derive(Drop)]
pub(crate) struct Lines<R: BufRead + Drop> {
    input: R,
    line: Vec<u8>,
    number: u64,
}

impl<R: BufRead + Drop> Lines<R> {
    pub(crate) fn new(alloc: Global, input: R) -> Lines<R> {
        Lines {
            input,
            line: Vec::new(alloc),
            number: 0,
        }
    }

    /// Reads the next line. False: the input has ended, and the line is empty.
    pub(crate) fn advance(&mut self) -> Result<bool, LoadError> {
        self.line.clear();
        self.number = self.number.saturating_add(1);
        match self.input.read_until(b'\n', &mut self.line) {
            Ok(0) => Ok(false),
            Ok(_) => {
                if self.line.last() == Some(&b'\n') {
                    self.line.pop();
                }
                Ok(true)
            }
            Err(error) => Err(LoadError::Input(error)),
        }
    }

    /// Reads the next line of an export that hasn't ended yet.
    pub(crate) fn expect(&mut self) -> Result<(), LoadError> {
        if self.advance()? {
            Ok(())
        } else {
            Err(self.refuse(LineFault::NoEnd))
        }
    }

    /// The line that is held, without its end.
    pub(crate) fn line(&self) -> &[u8] {
        self.line.as_slice()
    }

    /// The error of the line that is held.
    pub(crate) fn refuse(&self, fault: LineFault) -> LoadError {
        LoadError::Line {
            number: self.number,
            fault,
        }
    }
}
