//! Bytes that are printed as hexadecimal.

use std::fmt;

/// Bytes, two digits each.
#[derive(Drop)]
pub struct Digits(pub Vec<u8>);

impl fmt::Debug for Digits {
    fn fmt<W: fmt::Write>(&self, f: &mut fmt::Formatter<W>) -> fmt::Result {
        for byte in self.0.as_slice() {
            write!(f, "{byte:02x}")?;
        }
        Ok(())
    }
}
