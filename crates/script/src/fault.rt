// What ends a script that is none.

use std::error::Error;
use std::fmt;

#[derive(Clone, Copy, Debug, PartialEq, Eq)]
pub enum Fault {
    // the bytes end within a call
    Ends,
    // a call reaches past the longest script
    TooLong,
    // a call's lengths say more or fewer words than it has
    Misfit,
    // a sheet or a text is longer than any of a script
    LongBytes,
    // bytes are filled up to whole words with others than 0
    Padding,
    // a slot, a mode or a byte is none
    OutOfRange,
    // a splice has more new elements than any of a script
    ManyNew,
    // a call that asks nothing of a path is read as one that does
    NoQuestion,
}

impl fmt::Display for Fault {
    fn fmt<W: fmt::Write>(&self, f: &mut fmt::Formatter<W>) -> fmt::Result {
        f.write_str(match self {
            Fault::Ends => "the script ends within it",
            Fault::TooLong => "it reaches past 1000000 bytes",
            Fault::Misfit => "its lengths do not fit its words",
            Fault::LongBytes => "its sheet or text is too long",
            Fault::Padding => "its bytes are padded with others than 0",
            Fault::OutOfRange => "its slot, mode or byte is out of range",
            Fault::ManyNew => "it has more than 4200 new numbers",
            Fault::NoQuestion => "it asks nothing of a path",
        })
    }
}

impl Error for Fault {}

// Where a call stands: its ordinal from 0, and the byte where it starts.
#[derive(Clone, Copy, Debug, PartialEq, Eq)]
pub struct Place {
    pub ordinal: usize,
    pub byte: usize,
}

// The call that is at fault. The replies to the calls before it stand.
#[derive(Clone, Copy, Debug, PartialEq, Eq)]
pub struct Complaint {
    pub place: Place,
    pub fault: Fault,
}

impl fmt::Display for Complaint {
    fn fmt<W: fmt::Write>(&self, f: &mut fmt::Formatter<W>) -> fmt::Result {
        let Place { ordinal, byte } = self.place;
        let fault = self.fault;
        write!(f, "call {ordinal} at byte {byte}: {fault}")
    }
}

impl Error for Complaint {}
