// The calls by their numbers (docs/REPLAY.md has what each asks).

ghost use Rattle.script.specs.Op.{Numbers};

#[derive(Clone, Copy, Debug, PartialEq, Eq)]
pub enum Op {
    Store,
    // sheets
    Run,
    RunEvents,
    // edits
    ReplaceChild,
    InsertChild,
    RemoveChild,
    SpliceChildren,
    ReplaceWith,
    // what is asked of a path
    Here,
    Parent,
    FirstChild,
    LastChild,
    FirstChildOrToken,
    LastChildOrToken,
    NextSibling,
    PrevSibling,
    NextSiblingOrToken,
    PrevSiblingOrToken,
    FirstToken,
    LastToken,
    NextToken,
    PrevToken,
    TokenAtOffset,
    ChildOrTokenAtRange,
    CoveringElement,
    SameElement,
    WhereIs,
    // walks
    WalkBegin,
    WalkNext,
    WalkSkip,
    WalkMany,
    // texts
    TextOf,
    TextSlice,
    TextLength,
    ChunkBegin,
    ChunkNext,
    TextContains,
    TextFind,
    TextCharAt,
    TextEqual,
    // what the store keeps of an element
    Element,
    Mark,
    Record,
}

// The number of a call that is not known.
#[derive(Clone, Copy, Debug, PartialEq, Eq)]
pub struct NotOffered(pub u32);

impl TryFrom<u32> for Op {
    type Error = NotOffered;

    ghost try_from_gives = { Numbers };

    fn try_from(number: u32) -> Result<Op, NotOffered> {
        Ok(match number {
            1 => Op::Store,
            2 => Op::Run,
            3 => Op::RunEvents,
            10 => Op::ReplaceChild,
            11 => Op::InsertChild,
            12 => Op::RemoveChild,
            13 => Op::SpliceChildren,
            14 => Op::ReplaceWith,
            20 => Op::Here,
            21 => Op::Parent,
            22 => Op::FirstChild,
            23 => Op::LastChild,
            24 => Op::FirstChildOrToken,
            25 => Op::LastChildOrToken,
            26 => Op::NextSibling,
            27 => Op::PrevSibling,
            28 => Op::NextSiblingOrToken,
            29 => Op::PrevSiblingOrToken,
            30 => Op::FirstToken,
            31 => Op::LastToken,
            32 => Op::NextToken,
            33 => Op::PrevToken,
            34 => Op::TokenAtOffset,
            35 => Op::ChildOrTokenAtRange,
            36 => Op::CoveringElement,
            37 => Op::SameElement,
            38 => Op::WhereIs,
            40 => Op::WalkBegin,
            41 => Op::WalkNext,
            42 => Op::WalkSkip,
            43 => Op::WalkMany,
            50 => Op::TextOf,
            51 => Op::TextSlice,
            52 => Op::TextLength,
            53 => Op::ChunkBegin,
            54 => Op::ChunkNext,
            55 => Op::TextContains,
            56 => Op::TextFind,
            57 => Op::TextCharAt,
            58 => Op::TextEqual,
            60 => Op::Element,
            61 => Op::Mark,
            64 => Op::Record,
            _ => return Err(NotOffered(number)),
        })
    }
}
