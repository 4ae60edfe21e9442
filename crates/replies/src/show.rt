// What runs, edits and records come to.

use builder::state::EventAnswer;
use green::Counts;
use green::element::Summary;
use sheet::Ended;
use std::fmt;
use std::fmt::{Display, Formatter, Write};
use utility_types::{Refusal, SyntaxKind};

// A value as a reply shows it.
#[derive(Clone, Copy)]
pub struct Shown<T>(pub T);

impl Display for Shown<Refusal> {
    fn fmt<W: Write>(&self, f: &mut Formatter<W>) -> fmt::Result {
        write!(f, "refused {}", u64::from(self.0))
    }
}

// The counts in use: records, child places and text bytes.
impl Display for Shown<&Counts> {
    fn fmt<W: Write>(&self, f: &mut Formatter<W>) -> fmt::Result {
        let used = self.0;
        write!(f, "{} {} {}", used[0], used[1], used[2])
    }
}

// An accepted event: what it yields.
impl Display for Shown<EventAnswer> {
    fn fmt<W: Write>(&self, f: &mut Formatter<W>) -> fmt::Result {
        match self.0 {
            EventAnswer::Yielded(number) => write!(f, "e {number}"),
            _ => write!(f, "e -"),
        }
    }
}

// How a run ended.
impl Display for Shown<Ended> {
    fn fmt<W: Write>(&self, f: &mut Formatter<W>) -> fmt::Result {
        match self.0 {
            Ok(root) => write!(f, "root {root}"),
            Err((why, event)) => write!(f, "{} event {event}", Shown(why)),
        }
    }
}

// What an edit made, or why it was turned down.
impl Display for Shown<Result<usize, Refusal>> {
    fn fmt<W: Write>(&self, f: &mut Formatter<W>) -> fmt::Result {
        match self.0 {
            Ok(number) => write!(f, "element {number}"),
            Err(why) => write!(f, "{}", Shown(why)),
        }
    }
}

// Whether an element is a node or a token, and its kind.
#[derive(Clone, Copy)]
pub struct Kind {
    pub is_node: bool,
    pub kind: SyntaxKind,
}

impl Display for Kind {
    fn fmt<W: Write>(&self, f: &mut Formatter<W>) -> fmt::Result {
        let number = self.kind.0;
        if self.is_node {
            write!(f, "node {number}")
        } else {
            write!(f, "token {number}")
        }
    }
}

// What a record keeps of its element.
impl Display for Shown<Summary> {
    fn fmt<W: Write>(&self, f: &mut Formatter<W>) -> fmt::Result {
        let it = self.0;
        let kind = Kind {
            is_node: it.is_node,
            kind: it.kind,
        };
        write!(
            f,
            "{kind} {} {} {} {}",
            it.len, it.size, it.height, it.children
        )
    }
}

// A mark is a record's hash.
#[derive(Clone, Copy)]
pub struct Mark(pub u64);

impl Display for Mark {
    fn fmt<W: Write>(&self, f: &mut Formatter<W>) -> fmt::Result {
        write!(f, "mark {:016x}", self.0)
    }
}
