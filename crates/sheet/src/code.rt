// The events by their codes.

ghost use Rattle.sheet.specs.Code.{Codes};

#[derive(Clone, Copy, Debug, PartialEq, Eq)]
pub enum Code {
    Token,
    StartNode,
    FinishNode,
    Checkpoint,
    StartNodeAt,
}

// A code that no event has.
#[derive(Clone, Copy, Debug, PartialEq, Eq)]
pub struct NoEvent(pub u32);

impl TryFrom<u32> for Code {
    type Error = NoEvent;

    ghost try_from_gives = { Codes };

    fn try_from(code: u32) -> Result<Code, NoEvent> {
        Ok(match code {
            1 => Code::Token,
            2 => Code::StartNode,
            3 => Code::FinishNode,
            4 => Code::Checkpoint,
            5 => Code::StartNodeAt,
            _ => return Err(NoEvent(code)),
        })
    }
}
