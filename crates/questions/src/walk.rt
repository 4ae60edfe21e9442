// A walk that is kept.

ghost use Rattle.std.specs.Prelude.{◌≡◌, ◌≤◌, ◌<◌};

use preorder::state::Coming;

// From the element at the first `start` indexes of the path; the first `depth` of them lead to what comes next.
#[derive(Clone, Copy)]
pub struct Walk {
    pub root: usize,
    pub tokens: bool,
    pub start: usize,
    pub path: [u32; 64],
    pub coming: Coming,
    pub depth: usize,
    ghost has_room: { depth ≤ 64 },
}

impl Walk {
    // Something else comes next. No walk has more than 64 indexes: one that would is over.
    pub fn go_to(&mut self, coming: Coming, depth: usize)
        ensures next { depth ≤ 64 → (self.new.coming ≡ coming) × (self.new.depth ≡ depth) }
        ensures over { 64 < depth → (self.new.coming ≡ Coming.Ended) × (self.new.depth ≡ self.old.depth) }
        ensures kept { (self.new.root ≡ self.old.root) × (self.new.tokens ≡ self.old.tokens) × (self.new.start ≡ self.old.start) × (self.new.path ≡ self.old.path) }
    {
        if depth <= 64 {
            self.coming = coming;
            self.depth = depth;
        } else {
            self.coming = Coming::Ended;
        }
    }
}
