// A text that is kept.

// A range of the text of the node at a path of `depth` indexes, and how many of its chunks were given.
#[derive(Clone, Copy)]
pub struct Text {
    pub root: usize,
    pub path: [u32; 64],
    pub depth: usize,
    pub start: usize,
    pub end: usize,
    pub given: usize,
}
