// Bytes in a reply: their count, and two digits for each.

use crate::show::Shown;
use std::fmt;
use std::fmt::{Display, Formatter, Write};
use utility_types::Refusal;

// Two digits for each byte.
#[derive(Clone, Copy)]
struct Digits<'a>(&'a [u8]);

impl Display for Digits<'_> {
    fn fmt<W: Write>(&self, f: &mut Formatter<W>) -> fmt::Result {
        for byte in self.0 {
            write!(f, "{byte:02x}")?;
        }
        Ok(())
    }
}

// Bytes at the end of a line.
#[derive(Clone, Copy)]
pub struct Bytes<'a>(pub &'a [u8]);

impl Display for Bytes<'_> {
    fn fmt<W: Write>(&self, f: &mut Formatter<W>) -> fmt::Result {
        if self.0.is_empty() {
            return write!(f, "0");
        }
        write!(f, "{} {}", self.0.len(), Digits(self.0))
    }
}

// What a step of a text's chunks answers.
#[derive(Clone, Copy)]
pub struct Chunk<'a>(pub Result<Option<&'a [u8]>, Refusal>);

impl Display for Chunk<'_> {
    fn fmt<W: Write>(&self, f: &mut Formatter<W>) -> fmt::Result {
        match self.0 {
            Ok(Some(bytes)) => write!(f, "chunk {}", Bytes(bytes)),
            Ok(None) => write!(f, "ended"),
            Err(why) => write!(f, "{}", Shown(why)),
        }
    }
}
