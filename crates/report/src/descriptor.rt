// A descriptor as std's `Print`.
use io::write_all;
use std::fmt::{self, Write};
use std::io::{Error, ErrorKind, Print, Result};

/// A descriptor that is open already, whatever its number, written by the kit's `io`; std's own handles are for standard output and standard
/// error alone.
#[derive(Clone, Copy, Debug, PartialEq, Eq)]
pub struct Descriptor(pub i32);

// What is formatted, piece by piece.
#[derive(Clone, Copy)]
struct Pieces(i32);

// The whole of some bytes written, or an error.
fn whole(written: bool) -> Result<()> {
    if written {
        Ok(())
    } else {
        Err(Error::from(ErrorKind::Other))
    }
}

impl fmt::Write for Pieces {
    fn write_str(&mut self, text: &str) -> fmt::Result {
        if write_all(self.0, text.as_bytes()) {
            Ok(())
        } else {
            Err(fmt::Error)
        }
    }
}

impl Print for Descriptor {
    fn print<D: fmt::Display + Drop>(&self, value: D) -> Result<()> {
        let mut pieces = Pieces(self.0);
        whole(write!(pieces, "{value}").is_ok())
    }

    fn println<D: fmt::Display + Drop>(&self, value: D) -> Result<()> {
        let mut pieces = Pieces(self.0);
        whole(write!(pieces, "{value}\n").is_ok())
    }

    fn write_all(&self, bytes: &[u8]) -> Result<()> {
        whole(write_all(self.0, bytes))
    }
}
