// The events of many steps of a walk, on one line.

use crate::line::{Element, Walked};
use preorder_many::state::{Given, Stop};
use std::fmt;
use std::fmt::{Display, Formatter, Write};
use utility_types::{Refusal, SyntaxElement, SyntaxKind, WalkEvent};

// The steps that one call gave: seven words for each of `count` events; the path of the first one; and how a last step came out
// that was no event, if there was one. Steps that another call gave before stand in front on the same line.
#[derive(Clone, Copy)]
pub struct Steps<'a> {
    pub is_first: bool,
    pub events: &'a [u64],
    pub count: usize,
    pub path: &'a [u32; 64],
    pub last: Option<Result<Option<WalkEvent>, Refusal>>,
}

// How the last of `asked` steps came out, if no event came.
pub fn last_of(given: Given, asked: usize) -> Option<Result<Option<WalkEvent>, Refusal>> {
    match given.stop {
        Stop::Full => None,
        Stop::Over if asked <= given.count => None,
        Stop::Over => Some(Ok(None)),
        Stop::Refused(why) => Some(Err(why)),
    }
}

// The element of an event, put at the end of the path of the one before it.
fn element_of(event: &[u64; 7], path: &mut [u32; 64]) -> SyntaxElement {
    let [_, is_node, kind, depth, index, start, end] = *event;
    let depth = depth as usize;
    if 0 < depth && depth <= 64 {
        path[depth - 1] = u32::try_from(index).unwrap_or(0);
    }
    SyntaxElement {
        is_node: is_node != 0,
        kind: SyntaxKind(u16::try_from(kind).unwrap_or(0)),
        start: start as usize,
        end: end as usize,
        depth,
    }
}

impl Display for Steps<'_> {
    fn fmt<W: Write>(&self, f: &mut Formatter<W>) -> fmt::Result {
        let mut is_first = self.is_first;
        let mut path = *self.path;
        let (events, _) = self.events.as_chunks::<7>();
        for event in events.iter().take(self.count) {
            f.write_str(if is_first { "" } else { " ; " })?;
            is_first = false;
            f.write_str(if event[0] == 0 { "enter " } else { "leave " })?;
            let it = element_of(event, &mut path);
            let path = &path;
            Element { it, path }.fmt(f)?;
        }
        if let Some(answer) = self.last {
            f.write_str(if is_first { "" } else { " ; " })?;
            let path = self.path;
            Walked { answer, path }.fmt(f)?;
        }
        Ok(())
    }
}
