// Bytes and sums as they are shown.
use lsm_tables::Checksum;
use serde::{Described, Serialize, Serializer};
use std::alloc::{AllocError, Global};
use std::fmt;

/// How many bytes a text shows at most.
const MOST: usize = 24;

/// Bytes as they are shown: as text where each is printable ASCII, else in hex. Printed, they are cut past 24.
#[derive(Drop, Serialize)]
#[serde(rename_all = "lowercase")]
pub enum ShownBytes {
    Text(String),
    Hex(String),
}

impl ShownBytes {
    pub fn new(alloc: Global, bytes: &[u8]) -> Result<ShownBytes, AllocError> {
        match str::from_utf8(bytes) {
            Ok(text) if bytes.iter().all(|byte| matches!(byte, 32..=126)) => {
                Ok(ShownBytes::Text(String::from_str(alloc, text)?))
            }
            _ => Ok(ShownBytes::Hex(hex::encode(alloc, bytes)?)),
        }
    }
}

impl fmt::Display for ShownBytes {
    fn fmt<W: fmt::Write>(&self, f: &mut fmt::Formatter<W>) -> fmt::Result {
        let (text, most) = match self {
            ShownBytes::Text(text) => (text.as_str(), MOST),
            ShownBytes::Hex(digits) => (digits.as_str(), 2 * MOST),
        };
        let shown = text.get(..most).unwrap_or(text);
        match self {
            ShownBytes::Text(_) => write!(f, "{shown:?}")?,
            ShownBytes::Hex(_) => write!(f, "0x{shown}")?,
        }
        if shown.len() < text.len() {
            write!(f, "..({})", text.len() / (most / MOST))?;
        }
        Ok(())
    }
}

/// A checksum as it is shown: in hex, its bytes in the order in which they stand in a file.
#[derive(Clone, Copy, PartialEq, Eq)]
pub struct Sum(pub Checksum);

impl fmt::Display for Sum {
    fn fmt<W: fmt::Write>(&self, f: &mut fmt::Formatter<W>) -> fmt::Result {
        let digits = self.0.into_u128().swap_bytes();
        write!(f, "{digits:032x}")
    }
}

impl Described for Sum {}

impl Serialize for Sum {
    fn serialize<S: Serializer>(&self, out: &mut S) -> Result<(), S::Error> {
        out.collect_str(self)
    }
}
