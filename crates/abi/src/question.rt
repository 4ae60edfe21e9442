// A question from its code and operands. The codes count the questions in the order of `questions` in specs/Codes.

ghost use Rattle.std.specs.Prelude.{◌≡◌};
ghost use Rattle.abi.specs.Codes.{character as character_of, coded_question, coded_as};

use crate::Words;
use query::question::Question;

// A character's number; one that is too large for 32 bits is the greatest that fits, which stands nowhere either.
fn character(x: usize) -> u32
    ensures { result ≡ character_of x }
{
    if x < 4294967295 { x as u32 } else { 4294967295 }
}

// The question of a code, if it is one. The code is a number, since C gives it.
pub fn of_code(code: usize, m: &Words) -> Option<Question>
    ensures { coded_as result ≡ coded_question code m.now }
{
    match code {
        0 => Some(Question::Here),
        1 => Some(Question::Parent),
        2 => Some(Question::FirstChild(false)),
        3 => Some(Question::LastChild(false)),
        4 => Some(Question::FirstChild(true)),
        5 => Some(Question::LastChild(true)),
        6 => Some(Question::NextSibling(false)),
        7 => Some(Question::PrevSibling(false)),
        8 => Some(Question::NextSibling(true)),
        9 => Some(Question::PrevSibling(true)),
        10 => Some(Question::FirstToken),
        11 => Some(Question::LastToken),
        12 => Some(Question::NextToken),
        13 => Some(Question::PrevToken),
        14 => Some(Question::TokenAtOffset(m[0])),
        15 => Some(Question::ChildOrTokenAtRange(m[0], m[1])),
        16 => Some(Question::CoveringElement(m[0], m[1])),
        17 => Some(Question::SameElement(m[0], m[1])),
        18 => Some(Question::WhereIs(m[0])),
        19 => Some(Question::Text),
        20 => Some(Question::Slice(m[0], m[1], m[2], m[3])),
        21 => Some(Question::TextLen(m[0], m[1])),
        22 => Some(Question::Contains(m[0], m[1], character(m[2]))),
        23 => Some(Question::Find(m[0], m[1], character(m[2]))),
        24 => Some(Question::CharAt(m[0], m[1], m[2])),
        25 => Some(Question::EqualText(m[0], m[1], m[2], m[3], m[4], m[5])),
        _ => None,
    }
}
