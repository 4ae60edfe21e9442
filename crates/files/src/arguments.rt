// The words that a program was started with. Number 0 is its own name.

ghost use Rattle.std.specs.Prelude.{◌≤◌, length, IfOk};

use crate::Error;
use std::env::{Env, FillError};

pub fn count(rt: HostRuntime) -> usize {
    (0..usize::MAX)
        .find(|i| matches!(rt.arg(*i, &mut []), Err(FillError::NotPresent)))
        .unwrap_or(usize::MAX)
}

// An argument, put at the start of a buffer.
pub fn read<'a>(rt: HostRuntime, i: usize, buf: &'a mut [u8]) -> Result<&'a [u8], Error>
    ensures { IfOk result (λ bytes. length bytes.now ≤ length buf.entry.now) }
{
    let count = rt.arg(i, buf)?;
    Ok(&buf[..count])
}

impl From<FillError> for Error {
    fn from(why: FillError) -> Error {
        match why {
            FillError::NotPresent => Error::Missing,
            FillError::TooLong => Error::TooLong,
        }
    }
}
