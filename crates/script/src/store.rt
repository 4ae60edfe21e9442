// The places that a script's store is lent: call 1 says how many.

ghost use Rattle.std.specs.Prelude.{◌≡◌, ◌≢◌, ◌↔◌, take, drop, IfOk, IsErrOf};
ghost use Rattle.std.specs.Int.{w32, from_le_bytes};

use crate::call::Call;
use crate::fault::Fault;

// How many records, child places and text bytes.
#[derive(Clone, Copy, Debug, PartialEq, Eq)]
pub struct Store {
    pub records: usize,
    pub children: usize,
    pub text: usize,
}

// What a script starts with.
impl Default for Store {
    fn default() -> Store
        ensures { (result.records ≡ 8192) × (result.children ≡ 16384) × (result.text ≡ 65536) }
    {
        Store {
            records: 8192,
            children: 16384,
            text: 65536,
        }
    }
}

impl Store {
    // The store that call 1 asks for.
    pub fn read(call: &mut Call) -> Result<Store, Fault>
        ensures misfit { IsErrOf result Fault.Misfit ↔ (call.old.left ≢ 3) }
        ensures records { IfOk result (λ store. store.records ≡ from_le_bytes w32 (take 4 call.old.rest.now)) }
        ensures children { IfOk result (λ store. store.children ≡ from_le_bytes w32 (take 4 (drop 4 call.old.rest.now))) }
        ensures text { IfOk result (λ store. store.text ≡ from_le_bytes w32 (take 4 (drop 8 call.old.rest.now))) }
    {
        call.exactly(3)?;
        Ok(Store {
            records: call.word()? as usize,
            children: call.word()? as usize,
            text: call.word()? as usize,
        })
    }
}
