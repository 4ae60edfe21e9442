// The calls of a script in turn: each has a head of two words, what it asks and how many words its arguments are, and then these.

ghost use Rattle.std.specs.Prelude.{◌≡◌, ◌+◌, ◌*◌, ◌≤◌, ◌↔◌, take, drop, IsOk, IfOk, IsErrOf, ◌⊎◌};
ghost use Rattle.std.specs.Int.{w32, from_le_bytes};
ghost use Rattle.script.specs.Op.{ReadAs};

use crate::call::Call;
use crate::fault::{Fault, Place};
use crate::op::Op;

// How many bytes a script has at most.
pub const MOST: usize = 1000000;

// A call's head. A call of a number that is not known has no `op`. `words` come after it.
#[derive(Clone, Copy)]
pub struct Head {
    pub place: Place,
    pub op: Option<Op>,
    pub words: u32,
    ghost fits: { place.byte + 8 + 4 * words ≤ 1000000 },
}

impl Head {
    // The head at a place of the script. No call reaches past the longest script.
    pub fn read(place: Place, bytes: [u8; 8]) -> Result<Head, Fault>
        ensures place { IfOk result (λ head. head.place ≡ place) }
        ensures op { IfOk result (λ head. ReadAs (from_le_bytes w32 (take 4 bytes)) head.op) }
        ensures words { IfOk result (λ head. head.words ≡ from_le_bytes w32 (drop 4 bytes)) }
        ensures ok { IsOk result ↔ (place.byte + 8 + 4 * from_le_bytes w32 (drop 4 bytes) ≤ 1000000) }
        ensures long { IsOk result ⊎ IsErrOf result Fault.TooLong }
    {
        let [a, b, c, d, e, f, g, h] = bytes;
        let op = Op::try_from(u32::from_le_bytes([a, b, c, d])).ok();
        let words = u32::from_le_bytes([e, f, g, h]);
        if MOST < place.byte.saturating_add(8 + 4 * words as usize) {
            return Err(Fault::TooLong);
        }
        Ok(Head { place, op, words })
    }

    // How many bytes come after the head.
    pub fn size(self) -> usize
        ensures { result ≡ 4 * self.words }
    {
        4 * self.words as usize
    }

    // Where the next call starts.
    pub fn next(self) -> Place
        ensures { result.byte ≡ self.place.byte + 8 + 4 * self.words }
    {
        Place {
            ordinal: self.place.ordinal.saturating_add(1),
            byte: self.place.byte + 8 + self.size(),
        }
    }

    // The call of this head whose arguments' words begin with these bytes, which are those that have come.
    pub fn call(self, rest: &[u8]) -> Call<'_>
        ensures place { (result.place ≡ self.place) × (result.op ≡ self.op) }
        ensures words { (result.left ≡ self.words) × (result.rest.now ≡ rest.now) }
    {
        Call {
            place: self.place,
            op: self.op,
            left: self.words,
            rest,
        }
    }
}
