// Where the words of a call are put.

ghost use Rattle.std.specs.Prelude.{◌≡◌, ◌++◌, ◌≤◌, ◌<◌, length, take, drop, IfOk};

use std::io;

// The words of a run with the longest sheet and text of a script.
const USUAL: usize = 98548;

// The first words of a call are on the stack, and all of them where they fit. The others go to the heap, as a stack with room for any call would be twice as
// large: a call wants them only if the first ones leave open how it is answered, that is if its path is too long for any element, or if it is not offered.
#[derive(Drop)]
pub struct Room {
    usual: [u8; USUAL],
    long: Vec<u8>,
}

fn put_front(place: &mut [u8], first: &[u8])
    requires { length first.now ≤ length place.old }
    ensures { place.new ≡ first.now ++ drop (length first.now) place.old }
{
    place[..first.len()].copy_from_slice(first);
}

impl Room {
    pub fn new(rt: HostRuntime) -> Room {
        Room {
            usual: [0; USUAL],
            long: Vec::new(rt.alloc()),
        }
    }

    // A place for a call's `size` bytes, or for the first of them. The first `came` of these, which were put into the place that was given before, are in it
    // again, and it goes on past them unless they are all.
    pub fn place(&mut self, came: usize, size: usize) -> io::Result<&mut [u8]>
        ensures fits { came ≤ size → IfOk result (λ place. came ≤ length place.now) }
        ensures further { came < size → IfOk result (λ place. came < length place.now) }
        ensures most { IfOk result (λ place. length place.now ≤ size) }
        ensures first { came ≤ 98548 → came ≤ size → IfOk result (λ place. take came place.now ≡ take came self.old.usual) }
        ensures others { 98548 < came → came ≤ size → came ≤ length self.old.long.items → IfOk result (λ place. take came place.now ≡ take came self.old.long.items) }
    {
        if came < USUAL || size <= USUAL {
            let size = size.min(USUAL);
            return Ok(&mut self.usual[..size]);
        }
        self.long.resize(size, 0)?;
        let long = &mut self.long[..size];
        if USUAL < came {
            return Ok(long);
        }
        put_front(long, &self.usual);
        Ok(long)
    }
}

#[cfg(test)]
mod tests {
    use super::*;

    #[test]
    fn long_calls_keep_their_first_words(rt: HostRuntime) {
        let mut room = Room::new(rt);
        if let Ok(first) = room.place(0, USUAL + 4) {
            first.fill(7);
        }
        let all = room
            .place(USUAL, USUAL + 4)
            .map(|words| (words.len(), words.first().copied()));
        assert!(rt;
            matches!(all, Ok((98552, Some(7)))),
            "all its words have a place"
        );
    }
}
