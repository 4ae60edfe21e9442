// Calls 53 and 54: the chunks of a text in a slot.

ghost use Rattle.green.specs.View.{view};

use cursor::path::Path;
use files::out::Output;
use green::Store;
use questions::slots::{Slot, Slots};
use questions::text::Text;
use replies::bytes::Chunk;
use script::call::Call;
use script::fault::Fault;
use script::op::Op;
use syntax_text::text::SyntaxText;
use syntax_text_chunks::chunks;
use syntax_text_chunks::chunks::Chunks;

// The next chunk, and how many were then given. The state keeps no place at first: the chunk before is found by its count, and leaves the place of this one.
fn next(out: &mut Output, store: Store<'_, '_>, it: Text) -> usize {
    let path = it.path;
    let text = SyntaxText {
        node: Path {
            root: it.root,
            indexes: &path,
            depth: it.depth,
        },
        start: it.start,
        end: it.end,
    };
    let mut place = [0u32; 64];
    let mut chunks = Chunks {
        given: it.given.saturating_sub(1),
        place: &mut place,
        kept: 0,
    };
    if 0 < it.given {
        let _ = chunks::next_chunk(store, text, &mut chunks);
    }
    let came = chunks::next_chunk(store, text, &mut chunks);
    out.put_line(Chunk(came));
    chunks.given
}

pub fn answer(
    call: &mut Call,
    op: Op,
    out: &mut Output,
    store: Store<'_, '_>,
    slots: &mut Slots,
) -> Result<(), Fault> {
    let slot = Slot::read_last(call)?;
    let Some(mut it) = slots.text(slot) else {
        out.put_line("no text");
        return Ok(());
    };
    if let Op::ChunkNext = op {
        it.given = next(out, store, it);
    } else {
        it.given = 0;
        out.put_line("ok");
    }
    slots.set_text(slot, Some(it));
    Ok(())
}
