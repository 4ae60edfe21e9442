// An argument of bytes, a sheet or a text: their count, and they, padded with zero bytes to whole words.

ghost use Rattle.std.specs.Prelude.{◌≡◌, ◌≤◌, length, take, drop, IfOk};
ghost use Rattle.std.specs.Int.{w32, from_le_bytes};

use crate::call::Call;
use crate::fault::Fault;

impl<'a> Call<'a> {
    // At most `most` bytes. They are part of the script itself.
    pub fn bytes(&mut self, most: u32) -> Result<&'a [u8], Fault>
        ensures most { IfOk result (λ bytes. length bytes.now ≤ most) }
        ensures value { IfOk result (λ bytes. bytes.now ≡ take (from_le_bytes w32 (take 4 self.old.rest.now)) (drop 4 self.old.rest.now)) }
    {
        let count = self.word()?;
        if most < count {
            return Err(Fault::LongBytes);
        }
        let padded = self.take(count.div_ceil(4))?;
        let (bytes, padding) = padded.split_at(count as usize);
        if padding.iter().any(|byte| *byte != 0) {
            return Err(Fault::Padding);
        }
        Ok(bytes)
    }
}
