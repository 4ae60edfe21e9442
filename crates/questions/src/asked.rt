// What a call asks of the port.

ghost use Rattle.std.specs.Prelude.{◌≡◌};
ghost use Rattle.questions.specs.Keep.{Keeps};

use crate::slots::{Slot, Slots};
use crate::text::Text;
use crate::walk::Walk;
use query::question::Question;
use query::reply::Reply;
use utility_types::Refusal;

// Where a walk or a text that comes back is kept.
#[derive(Clone, Copy)]
pub enum Keeping {
    Nowhere,
    // and whether the walk counts tokens
    Walk(Slot, bool),
    Text(Slot),
}

// A question, and the root and the depth of the lent path that it is put to.
#[derive(Clone, Copy)]
pub struct Asked {
    pub question: Question,
    pub root: usize,
    pub depth: usize,
    pub keeping: Keeping,
}

impl Asked {
    // A question whose reply is kept nowhere.
    pub fn new(question: Question, root: usize, depth: usize) -> Asked
        ensures asked { (result.question ≡ question) × (result.root ≡ root) × (result.depth ≡ depth) }
        ensures keeping { result.keeping ≡ Keeping.Nowhere }
    {
        Asked {
            question,
            root,
            depth,
            keeping: Keeping::Nowhere,
        }
    }

    // Keeps a walk that begins, or a text, in the slot that was emptied when the call was read; another reply or a refusal leaves it empty.
    // No walk has more than 64 indexes.
    pub fn keep(self, slots: &mut Slots, path: &[u32; 64], reply: Result<Reply, Refusal>)
        ensures { Keeps self.keeping self path.now reply slots.old slots.new }
    {
        let Ok(reply) = reply else {
            return;
        };
        match (self.keeping, reply) {
            (Keeping::Walk(slot, tokens), Reply::Walk(ahead)) if ahead.depth <= 64 => {
                let walk = Walk {
                    root: self.root,
                    tokens,
                    start: self.depth,
                    path: *path,
                    coming: ahead.coming,
                    depth: ahead.depth,
                };
                slots.set_walk(slot, Some(walk));
            }
            (Keeping::Text(slot), Reply::Text(start, end)) => {
                let text = Text {
                    root: self.root,
                    path: *path,
                    depth: self.depth,
                    start,
                    end,
                    given: 0,
                };
                slots.set_text(slot, Some(text));
            }
            _ => {}
        }
    }
}
