// The lines of replies that name elements.

use crate::show::{Kind, Shown};
use query::reply::Reply;
use script::op::Op;
use std::fmt;
use std::fmt::{Display, Formatter, Write};
use utility_types::{Refusal, SyntaxElement, TokenAtOffset, WalkEvent};

// A path of `depth` indexes: their count, and they. No element has more than 64.
#[derive(Clone, Copy)]
struct Path<'a> {
    indexes: &'a [u32; 64],
    depth: usize,
}

impl Display for Path<'_> {
    fn fmt<W: Write>(&self, f: &mut Formatter<W>) -> fmt::Result {
        let Path { indexes, depth } = *self;
        write!(f, "{depth}")?;
        for index in indexes.iter().take(depth) {
            write!(f, " {index}")?;
        }
        Ok(())
    }
}

// Whether an element is a node or a token, its kind, its range and its path.
#[derive(Clone, Copy)]
pub struct Element<'a> {
    pub it: SyntaxElement,
    pub path: &'a [u32; 64],
}

impl Display for Element<'_> {
    fn fmt<W: Write>(&self, f: &mut Formatter<W>) -> fmt::Result {
        let it = self.it;
        let kind = Kind {
            is_node: it.is_node,
            kind: it.kind,
        };
        let path = Path {
            indexes: self.path,
            depth: it.depth,
        };
        // Part by part: one format around them costs a tenth more where a walk puts millions.
        kind.fmt(f)?;
        write!(f, " {} {} ", it.start, it.end)?;
        path.fmt(f)
    }
}

// What a walk gives, by the path of what came.
#[derive(Clone, Copy)]
pub struct Walked<'a> {
    pub answer: Result<Option<WalkEvent>, Refusal>,
    pub path: &'a [u32; 64],
}

impl Display for Walked<'_> {
    fn fmt<W: Write>(&self, f: &mut Formatter<W>) -> fmt::Result {
        let path = self.path;
        match self.answer {
            Ok(Some(WalkEvent::Enter(it))) => write!(f, "enter {}", Element { it, path }),
            Ok(Some(WalkEvent::Leave(it))) => write!(f, "leave {}", Element { it, path }),
            Ok(None) => write!(f, "ended"),
            Err(why) => write!(f, "{}", Shown(why)),
        }
    }
}

// The reply to a call, by the two paths that were lent.
#[derive(Clone, Copy)]
pub struct Replied<'a> {
    pub op: Op,
    pub reply: Result<Reply, Refusal>,
    pub path: &'a [u32; 64],
    pub other: &'a [u32; 64],
}

impl Replied<'_> {
    // The tokens at an offset, each with its path.
    fn fmt_tokens<W: Write>(&self, f: &mut Formatter<W>, tokens: TokenAtOffset) -> fmt::Result {
        let path = self.path;
        match tokens {
            TokenAtOffset::None => write!(f, "none"),
            TokenAtOffset::Single(it) => write!(f, "{}", Element { it, path }),
            TokenAtOffset::Between(it, right) => {
                let right = Element {
                    it: right,
                    path: self.other,
                };
                write!(f, "{} {right}", Element { it, path })
            }
        }
    }

    // What is asked of a text.
    fn fmt_number<W: Write>(&self, f: &mut Formatter<W>, number: usize) -> fmt::Result {
        match self.op {
            Op::TextLength => write!(f, "length {number}"),
            Op::TextFind => write!(f, "at {number}"),
            _ => write!(f, "char {number}"),
        }
    }
}

impl Display for Replied<'_> {
    fn fmt<W: Write>(&self, f: &mut Formatter<W>) -> fmt::Result {
        let path = self.path;
        match self.reply {
            Ok(Reply::None) => write!(f, "none"),
            Ok(Reply::Element(it)) => write!(f, "{}", Element { it, path }),
            Ok(Reply::Tokens(tokens)) => self.fmt_tokens(f, tokens),
            Ok(Reply::Text(_, _) | Reply::Walk(_)) => write!(f, "ok"),
            Ok(Reply::Number(number)) => self.fmt_number(f, number),
            Ok(Reply::Truth(true)) => write!(f, "yes"),
            Ok(Reply::Truth(false)) => write!(f, "no"),
            Ok(Reply::Path(depth)) => {
                let found = Path {
                    indexes: path,
                    depth,
                };
                write!(f, "found {found}")
            }
            Err(why) => write!(f, "{}", Shown(why)),
        }
    }
}
