// The slots of a script, four for walks and four for texts. A call's word says which one.

ghost use Rattle.std.specs.Prelude.{◌≡◌, ◌+◌, ◌<◌, None, Some, IfOk, slice_get, slice_set, take, replicate};
ghost use Rattle.std.specs.Int.{w32, from_le_bytes};

use crate::text::Text;
use crate::walk::Walk;
use script::call::Call;
use script::fault::Fault;

// One of the four slots for walks, or of the four for texts.
#[derive(Clone, Copy)]
pub struct Slot {
    number: usize,
    ghost is_one: { number < 4 },
}

impl Slot {
    pub fn read(call: &mut Call) -> Result<Slot, Fault>
        ensures value { IfOk result (λ slot. slot.number ≡ from_le_bytes w32 (take 4 call.old.rest.now)) }
        ensures left { IfOk result (λ _. call.new.left + 1 ≡ call.old.left) }
    {
        let number = call.below(4)? as usize;
        Ok(Slot { number })
    }

    // The same of a call's last word.
    pub fn read_last(call: &mut Call) -> Result<Slot, Fault>
        ensures value { IfOk result (λ slot. slot.number ≡ from_le_bytes w32 (take 4 call.old.rest.now)) }
        ensures last { IfOk result (λ _. call.old.left ≡ 1) }
    {
        let number = call.last_below(4)? as usize;
        Ok(Slot { number })
    }
}

// New ones are empty.
#[derive(Clone, Copy)]
pub struct Slots {
    walks: [Option<Walk>; 4],
    texts: [Option<Text>; 4],
}

impl Default for Slots {
    fn default() -> Slots
        ensures { (result.walks ≡ replicate 4 None) × (result.texts ≡ replicate 4 None) }
    {
        Slots {
            walks: [None; 4],
            texts: [None; 4],
        }
    }
}

impl Slots {
    pub fn walk(&self, slot: Slot) -> Option<Walk>
        ensures { slice_get self.now.walks slot.number ≡ Some result }
    {
        self.walks[slot.number]
    }

    pub fn set_walk(&mut self, slot: Slot, walk: Option<Walk>)
        ensures set { self.new.walks ≡ slice_set self.old.walks slot.number walk }
        ensures kept { self.new.texts ≡ self.old.texts }
    {
        self.walks[slot.number] = walk;
    }

    pub fn text(&self, slot: Slot) -> Option<Text>
        ensures { slice_get self.now.texts slot.number ≡ Some result }
    {
        self.texts[slot.number]
    }

    pub fn set_text(&mut self, slot: Slot, text: Option<Text>)
        ensures set { self.new.texts ≡ slice_set self.old.texts slot.number text }
        ensures kept { self.new.walks ≡ self.old.walks }
    {
        self.texts[slot.number] = text;
    }
}
