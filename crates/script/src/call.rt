// A call and those of its words that were not read yet. A method takes what it answers off the front, so that each word is read once. A call whose words
// have not all come is read again from its first one when more have; after another fault the script is over.

ghost use Rattle.std.specs.Prelude.{◌≡◌, ◌+◌, ◌*◌, ◌≤◌, ◌<◌, ◌↔◌, ◌≢◌, length, take, drop, IsOk, IfOk, IsErrOf};
ghost use Rattle.std.specs.Int.{w32, from_le_bytes};
ghost use Rattle.script.specs.Words.{words};

use crate::fault::{Fault, Place};
use crate::op::Op;

// A call of a number that is not known has no `op`. `left` of its words come next; `rest` has those of them that have come.
#[derive(Clone, Copy)]
pub struct Call<'a> {
    pub place: Place,
    pub op: Option<Op>,
    pub left: u32,
    pub rest: &'a [u8],
}

impl<'a> Call<'a> {
    pub fn word(&mut self) -> Result<u32, Fault>
        ensures value { IfOk result (λ word. word ≡ from_le_bytes w32 (take 4 self.old.rest.now)) }
        ensures misfit { IsErrOf result Fault.Misfit ↔ (self.old.left ≡ 0) }
        ensures rest { IfOk result (λ _. self.new.rest.now ≡ drop 4 self.old.rest.now) }
        ensures size { IfOk result (λ _. length self.new.rest.now + 4 ≡ length self.old.rest.now) }
        ensures left { IfOk result (λ _. self.new.left + 1 ≡ self.old.left) }
    {
        if self.left == 0 {
            return Err(Fault::Misfit);
        }
        let (word, rest) = self.rest.split_first_chunk::<4>().ok_or(Fault::Ends)?;
        self.left -= 1;
        self.rest = rest;
        Ok(u32::from_le_bytes(*word))
    }

    // A word that must be less than `bound`: a slot, a walk's mode or a byte.
    pub fn below(&mut self, bound: u32) -> Result<u32, Fault>
        ensures value { IfOk result (λ word. word ≡ from_le_bytes w32 (take 4 self.old.rest.now)) }
        ensures below { IfOk result (λ word. word < bound) }
        ensures left { IfOk result (λ _. self.new.left + 1 ≡ self.old.left) }
    {
        let word = self.word()?;
        if bound <= word {
            return Err(Fault::OutOfRange);
        }
        Ok(word)
    }

    // The bytes of the next `count` words.
    pub fn take(&mut self, count: u32) -> Result<&'a [u8], Fault>
        ensures value { IfOk result (λ bytes. bytes.now ≡ take (4 * count) self.old.rest.now) }
        ensures size { IfOk result (λ bytes. length bytes.now ≡ 4 * count) }
        ensures misfit { IsErrOf result Fault.Misfit ↔ (self.old.left < count) }
        ensures rest { IfOk result (λ _. self.new.rest.now ≡ drop (4 * count) self.old.rest.now) }
        ensures left { IfOk result (λ _. self.new.left + count ≡ self.old.left) }
    {
        if self.left < count {
            return Err(Fault::Misfit);
        }
        let size = 4 * count as usize;
        let (bytes, rest) = self.rest.split_at_checked(size).ok_or(Fault::Ends)?;
        self.left -= count;
        self.rest = rest;
        Ok(bytes)
    }

    // The next words, as many as a lent place has.
    pub fn fill(&mut self, into: &mut [u32]) -> Result<(), Fault>
        ensures size { length into.new ≡ length into.old }
        ensures words { IfOk result (λ _. into.new ≡ words (length into.old) self.old.rest.now) }
        ensures rest { IfOk result (λ _. self.new.rest.now ≡ drop (4 * length into.old) self.old.rest.now) }
        ensures left { IfOk result (λ _. self.new.left + length into.old ≡ self.old.left) }
    {
        for i in 0..into.len() {
            into[i] = self.word()?;
        }
        Ok(())
    }

    // Whether as many words are left as the arguments need.
    pub fn exactly(&self, count: u32) -> Result<(), Fault>
        ensures ok { IsOk result ↔ (self.now.left ≡ count) }
        ensures misfit { IsErrOf result Fault.Misfit ↔ (self.now.left ≢ count) }
    {
        if self.left != count {
            return Err(Fault::Misfit);
        }
        Ok(())
    }

    // The last word.
    pub fn last_word(&mut self) -> Result<u32, Fault>
        ensures value { IfOk result (λ word. word ≡ from_le_bytes w32 (take 4 self.old.rest.now)) }
        ensures misfit { IsErrOf result Fault.Misfit ↔ (self.old.left ≢ 1) }
    {
        self.exactly(1)?;
        self.word()
    }

    // The last word, where it must be less than `bound`.
    pub fn last_below(&mut self, bound: u32) -> Result<u32, Fault>
        ensures value { IfOk result (λ word. word ≡ from_le_bytes w32 (take 4 self.old.rest.now)) }
        ensures below { IfOk result (λ word. word < bound) }
        ensures last { IfOk result (λ _. self.old.left ≡ 1) }
    {
        let word = self.below(bound)?;
        self.exactly(0)?;
        Ok(word)
    }

    // Words that nothing wants.
    pub fn pass_over(&mut self) -> Result<(), Fault>
        ensures { IfOk result (λ _. self.new.left ≡ 0) }
    {
        self.take(self.left)?;
        Ok(())
    }
}
