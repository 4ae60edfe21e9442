// rowan's utility_types.rs, and the types of the answers that every crate above shares.
// `number` has a number from its bytes. specs/ says of each what document 01 means by it.

#![tactic(auto)]

ghost use Rattle.std.specs.Prelude.{◌≡◌};
ghost use Rattle.utility_types.specs.Numbers.{refusal_number};

pub mod number;

// A kind, as in rowan: a number of 16 bits, told apart from other numbers by its type.
#[derive(Clone, Copy, PartialEq, Eq)]
pub struct SyntaxKind(pub u16);

// Which of the two a record's number names.
#[derive(Clone, Copy)]
pub enum NodeOrToken {
    Node(usize),
    Token(usize),
}

#[derive(Clone, Copy)]
pub enum Direction {
    Next,
    Prev,
}

// An element as answers name it. Its path is beside it: the first `depth` indexes of the path that the caller lent.
#[derive(Clone, Copy)]
pub struct SyntaxElement {
    pub is_node: bool,
    pub kind: SyntaxKind,
    pub start: usize,
    pub end: usize,
    pub depth: usize,
}

// One step of a walk.
#[derive(Clone, Copy)]
pub enum WalkEvent {
    // before the element's children
    Enter(SyntaxElement),
    // after them
    Leave(SyntaxElement),
}

// There may be no, one or two tokens at an offset.
#[derive(Clone, Copy)]
pub enum TokenAtOffset {
    None,
    Single(SyntaxElement),
    // the offset is exactly between two
    Between(SyntaxElement, SyntaxElement),
}

// Why a call is turned down; a refused call changes nothing.
#[derive(Clone, Copy)]
pub enum Refusal {
    // because of the input
    Malformed,
    BadEvent,
    BadText,
    NoSuchElement,
    OutOfRange,
    OtherKind,
    // because of the state
    NothingOpen,
    UnfitCheckpoint,
    Unfinished,
    TooLarge,
    NoRoom,
    SkipBeforeFirst,
}

// Document 01's number of a refusal.
impl From<Refusal> for u64 {
    ghost from_gives = { λ r n. n ≡ refusal_number r };

    fn from(r: Refusal) -> u64 {
        match r {
            Refusal::Malformed => 1,
            Refusal::BadEvent => 2,
            Refusal::BadText => 3,
            Refusal::NoSuchElement => 4,
            Refusal::OutOfRange => 5,
            Refusal::OtherKind => 6,
            Refusal::NothingOpen => 11,
            Refusal::UnfitCheckpoint => 12,
            Refusal::Unfinished => 13,
            Refusal::TooLarge => 14,
            Refusal::NoRoom => 15,
            Refusal::SkipBeforeFirst => 16,
        }
    }
}
