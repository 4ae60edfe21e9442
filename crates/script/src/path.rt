// A path among a call's words: the root's number, how many child indexes there are, and these.

ghost use Rattle.std.specs.Prelude.{◌≡◌, ◌+◌, take, IfOk};
ghost use Rattle.std.specs.Int.{w32, from_le_bytes};

use crate::call::Call;
use crate::fault::Fault;

// A path whose first 64 indexes were put into a lent place. One that is longer names no element.
#[derive(Clone, Copy)]
pub struct Path {
    pub root: usize,
    pub depth: usize,
}

impl Call<'_> {
    pub fn path(&mut self, path: &mut [u32; 64]) -> Result<Path, Fault>
        ensures root { IfOk result (λ read. read.root ≡ from_le_bytes w32 (take 4 self.old.rest.now)) }
        ensures left { IfOk result (λ read. self.new.left + read.depth + 2 ≡ self.old.left) }
    {
        let root = self.word()? as usize;
        let depth = self.word()?;
        let (indexes, _) = self.take(depth)?.as_chunks::<4>();
        for (place, index) in path.iter_mut().zip(indexes) {
            *place = u32::from_le_bytes(*index);
        }
        Ok(Path {
            root,
            depth: depth as usize,
        })
    }

    // The same where nothing comes after it.
    pub fn last_path(&mut self, path: &mut [u32; 64]) -> Result<Path, Fault>
        ensures root { IfOk result (λ read. read.root ≡ from_le_bytes w32 (take 4 self.old.rest.now)) }
        ensures last { IfOk result (λ read. read.depth + 2 ≡ self.old.left) }
    {
        let read = self.path(path)?;
        self.exactly(0)?;
        Ok(read)
    }
}
