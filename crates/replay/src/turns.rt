// A script in an open file. Each call is read when its turn comes, so that the calls before it are answered first.

ghost use Rattle.std.specs.Prelude.{◌≡◌, ◌+◌, ◌*◌, ◌≤◌, length, IfOk, IfSome};

use files::Part;
use script::calls::Head;
use script::fault::{Complaint, Fault, Place};
use std::fs::File;
use std::io;
use std::io::Read;

// The next call stands at `next`. Where no more can be read, `read` has the reason.
#[derive(Drop)]
pub struct Turns {
    file: File,
    pub next: Place,
    pub read: io::Result<()>,
}

impl Turns {
    pub fn new(file: File) -> Turns
        ensures { (result.next.ordinal ≡ 0) × (result.next.byte ≡ 0) }
    {
        Turns {
            file,
            next: Place {
                ordinal: 0,
                byte: 0,
            },
            read: Ok(()),
        }
    }

    // The head of the next call, unless the script is over.
    fn head(&mut self) -> Result<Option<Head>, Fault>
        ensures place { IfOk result (λ next. IfSome next (λ head. head.place ≡ self.old.next)) }
        ensures kept { self.new.next ≡ self.old.next }
    {
        let mut bytes = [0u8; 8];
        let Part { count, ended } = files::read_part(&mut self.file, &mut bytes);
        self.read = ended;
        match count {
            0 => Ok(None),
            8 => Head::read(self.next, bytes).map(Some),
            _ => Err(Fault::Ends),
        }
    }

    // The same, and the one after it stands next. Its words are left to `words`.
    pub fn next_head(&mut self) -> Result<Option<Head>, Complaint>
        ensures place { IfOk result (λ next. IfSome next (λ head. head.place ≡ self.old.next)) }
        ensures next { IfOk result (λ next. IfSome next (λ head. self.new.next.byte ≡ self.old.next.byte + 8 + 4 * head.words)) }
        ensures most { IfOk result (λ next. IfSome next (λ _. self.new.next.byte ≤ 1000000)) }
    {
        let place = self.next;
        let head = self.head().map_err(|fault| Complaint { place, fault })?;
        let Some(head) = head else {
            return Ok(None);
        };
        self.next = head.next();
        Ok(Some(head))
    }

    // Puts the bytes that come next at the start of a lent place: how many there are, fewer than it takes where the script ends or comes through a pipe.
    // None come where it has ended, or where no more can be read.
    pub fn words(&mut self, buf: &mut [u8]) -> usize
        ensures count { result ≤ length buf.new }
        ensures kept { self.new.next ≡ self.old.next }
    {
        match self.file.read(buf) {
            Ok(count) => count,
            Err(error) => {
                self.read = Err(error);
                0
            }
        }
    }
}
