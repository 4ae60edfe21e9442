// What the programs read and write: files by name, here, their arguments, in `arguments`, and standard output, in `out`. What
// cannot be opened, read or written is named on standard error.

#![tactic(auto)]

ghost use Rattle.std.specs.Prelude.{◌≤◌, length, IfOk};

use std::fs::File;
use std::io::{Print, Read, Stderr};
use std::{fmt, io};

pub mod arguments;
pub mod out;

// Why an argument or a file was not read.
#[derive(Debug, Drop)]
pub enum Error {
    // an argument has more bytes than its place
    TooLong,
    // there is no such argument
    Missing,
    // a file's name is no text
    NotUtf8,
    // what the system says
    System(io::Error),
}

impl fmt::Display for Error {
    fn fmt<W: fmt::Write>(&self, f: &mut fmt::Formatter<W>) -> fmt::Result {
        match self {
            Error::TooLong => write!(f, "File name too long"),
            Error::Missing => write!(f, "Invalid argument"),
            Error::NotUtf8 => write!(f, "the name is not UTF-8"),
            Error::System(error) => write!(f, "{error}"),
        }
    }
}

impl std::error::Error for Error {}

impl From<io::Error> for Error {
    fn from(error: io::Error) -> Error {
        Error::System(error)
    }
}

// A line on standard error: what it is about, a colon, and what is wrong. A name need not be UTF-8, so what it is about is written as
// bytes. Where standard error cannot be written either, nobody is left to be told.
pub fn tell(to: Stderr, about: &[u8], what: impl fmt::Display + Drop) {
    let _ = to.write_all(about);
    let _ = eprintln!(to; ": {what}");
}

// An open file that can be read: a folder cannot, and a read of no bytes says so.
pub fn open(rt: HostRuntime, path: &[u8]) -> Result<File, Error> {
    let name = str::from_utf8(path).map_err(|_| Error::NotUtf8)?;
    let mut file = File::open(&rt, name)?;
    file.read(&mut [])?;
    Ok(file)
}

// How many bytes were read, and whether what ended them is an error.
#[derive(Debug, Drop)]
pub struct Part {
    pub count: usize,
    pub ended: io::Result<()>,
}

// As much of what is left of an open file as the buffer takes. What came before an error stands. The library's own ways to read that
// much ask for memory, or do not say where a shorter file ends.
pub fn read_part(file: &mut File, buf: &mut [u8]) -> Part
    ensures { result.count ≤ length buf.new }
{
    let mut count = 0;
    while count < buf.len() {
        match file.read(&mut buf[count..]) {
            Ok(0) => break,
            Ok(n) => count += n,
            Err(error) => {
                return Part {
                    count,
                    ended: Err(error),
                };
            }
        }
    }
    Part {
        count,
        ended: Ok(()),
    }
}

// The same of a file by its name: the bytes that were read.
pub fn read_file<'a>(rt: HostRuntime, path: &[u8], buf: &'a mut [u8]) -> Result<&'a [u8], Error>
    ensures { IfOk result (λ bytes. length bytes.now ≤ length buf.entry.now) }
{
    let mut file = open(rt, path)?;
    let Part { count, ended } = read_part(&mut file, buf);
    ended?;
    Ok(&buf[..count])
}
