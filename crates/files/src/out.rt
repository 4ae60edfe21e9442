// Standard output through std's buffer, so that a listing costs a write for each buffer and not one for each word.

ghost use Rattle.std.specs.Prelude.{◌≡◌, [], None, IsSome, IfSome, OnOk, OnErr};
ghost use Rattle.std.specs.Io.Buffered.{writer_contents};
ghost use Rattle.std.specs.Io.KnownBytes.{Appends};
ghost use Rattle.files.specs.Waiting.{waiting};

use crate::tell;
use std::fmt::{Display, Write as _};
use std::io::{BufWriter, Print, Stderr, Stdout, Write};
use std::{fmt, io};

// Where there is no memory for the buffer, each text is written as it comes, so that nothing is lost.
#[derive(Drop)]
enum Writer {
    Buffered(BufWriter<Stdout>),
    Bare(Stdout),
}

// The buffer is filled to its last place before it is written, so that what a terminal shows between two writes does not depend on the pieces that a text
// is put in. std's writer would write it before a piece that does not fit. A piece as long as the buffer is written as it is.
fn fill<W: Write + Drop>(writer: &mut BufWriter<W>, bytes: &[u8]) -> io::Result<()>
    ensures { OnOk result (Appends (writer_contents W.contents writer.old) (writer_contents W.contents writer.new) bytes.now) }
{
    let room = writer.capacity().saturating_sub(writer.buffer().len());
    let (first, rest) = bytes.split_at(room.min(bytes.len()));
    writer.write_all(first)?;
    writer.write_all(rest)
}

// A text on its way into the buffer, and the write that failed, if one did.
#[derive(Drop)]
struct Filling<'a> {
    writer: &'a mut BufWriter<Stdout>,
    written: io::Result<()>,
}

impl fmt::Write for Filling<'_> {
    fn write_str(&mut self, text: &str) -> fmt::Result {
        match fill(self.writer, text.as_bytes()) {
            Ok(()) => Ok(()),
            Err(error) => {
                self.written = Err(error);
                Err(fmt::Error)
            }
        }
    }
}

fn fill_text(writer: &mut BufWriter<Stdout>, text: impl Display + Drop) -> io::Result<()> {
    let mut filling = Filling {
        writer,
        written: Ok(()),
    };
    let _ = write!(filling, "{text}");
    filling.written
}

// Once a write has failed, which was told on standard error, there is no writer, and whatever comes later is dropped. The program
// goes on, so that it still says what else is wrong.
#[derive(Drop)]
pub struct Output {
    writer: Option<Writer>,
    complaints: Stderr,
}

impl Output {
    pub fn new(rt: HostRuntime) -> Output
        ensures { IsSome result.writer }
    {
        let writer = match BufWriter::new(rt.alloc(), rt.stdout()) {
            Ok(writer) => Writer::Buffered(writer),
            Err(_) => Writer::Bare(rt.stdout()),
        };
        Output {
            writer: Some(writer),
            complaints: rt.stderr(),
        }
    }

    // What comes after a write that failed is dropped, and its caller goes on: what is wrong with a script has still to be told.
    pub fn put(&mut self, text: impl Display + Drop)
        ensures { self.old.writer ≡ None → self.new.writer ≡ None }
    {
        let written = match &mut self.writer {
            Some(Writer::Buffered(writer)) => fill_text(writer, text),
            Some(Writer::Bare(writer)) => write!(writer, "{text}"),
            None => Ok(()),
        };
        self.check(written);
    }

    pub fn put_line(&mut self, text: impl Display + Drop)
        ensures { self.old.writer ≡ None → self.new.writer ≡ None }
    {
        self.put(format_args!("{text}\n"));
    }

    // The same of bytes, which need not be text.
    pub fn put_bytes(&mut self, bytes: &[u8])
        ensures { self.old.writer ≡ None → self.new.writer ≡ None }
    {
        let written = match &mut self.writer {
            Some(Writer::Buffered(writer)) => fill(writer, bytes),
            Some(Writer::Bare(writer)) => writer.write_all(bytes),
            None => Ok(()),
        };
        self.check(written);
    }

    // Writes what waits.
    pub fn flush(&mut self)
        ensures { IfSome self.new.writer (λ writer. waiting writer ≡ []) }
    {
        let written = match &mut self.writer {
            Some(Writer::Buffered(writer)) => writer.flush(),
            Some(Writer::Bare(writer)) => writer.flush(),
            None => Ok(()),
        };
        self.check(written);
    }

    // Tells of a write that failed. What then waits is dropped, too: the writer itself would try it once more.
    fn check(&mut self, written: io::Result<()>)
        ensures ok { OnOk written (self.new.writer ≡ self.old.writer) }
        ensures err { OnErr written (self.new.writer ≡ None) }
    {
        if let Err(error) = written {
            tell(self.complaints, b"standard output", error);
            if let Some(Writer::Buffered(writer)) = self.writer.take() {
                let _ = writer.into_parts();
            }
        }
    }
}
