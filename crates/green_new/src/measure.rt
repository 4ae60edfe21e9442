// For the crates above: the measure of an element that is not there yet. A node's is put together child by child, or comes from what it was before some of its children were exchanged.

ghost use Rattle.std.specs.Prelude.{◌≡◌, not, ◌&&◌, ◌||◌, cond, ◌+◌, ◌-◌, ◌≤◌, length, eqb, leb, ltb};
ghost use Rattle.std.proofs.Math.Seq.{slice};
ghost use Rattle.definitions.specs.Tree.{token, nil};
ghost use Rattle.definitions.specs.Hash.{add_word, token_hash};
ghost use Rattle.definitions.specs.Entry.{entry_at, trees_at};
ghost use Rattle.green.specs.Store.{entries};
ghost use Rattle.green.specs.View.{view};
ghost use Rattle.green.specs.Valid.{AllBelow};
ghost use Rattle.green.specs.Measure.{MeasureOf, Summable};
ghost use Rattle.green_new.specs.Over.{OverOf, Addable, RoomFor, Adds, AddsOne, Range};
ghost use Rattle.green_new.specs.Exchange.{Exchangeable, AfterExchange};

use green::Store;
use green::record::Measure;
use utility_types::SyntaxKind;

// A node over the children that were added: how many they are, whether it is sharable, and its measure.
#[derive(Clone, Copy)]
pub struct Over {
    pub count: usize,
    pub is_sharable: bool,
    pub measure: Measure,
}

// What the hash of an element starts from.
fn kind_hash(kind: SyntaxKind) -> u64
    ensures { result ≡ add_word 0 kind.0 }
{
    fx_hash::add_word(0, kind.0 as u64)
}

// 255 ends the text, as it ends a string that Rust hashes.
fn token_hash(kind: SyntaxKind, text: &[u8]) -> u64
    ensures { result ≡ token_hash kind.0 text.now }
{
    let mut h = kind_hash(kind);
    for byte in text {
        h = fx_hash::add_word(h, *byte as u64);
    }
    fx_hash::add_word(h, 255)
}

// A token.
pub fn of_token(kind: SyntaxKind, src: &[u8]) -> Measure
    ensures { MeasureOf (token kind.0 src.now) result }
{
    let hash = token_hash(kind, src);
    Measure {
        len: src.len(),
        size: 1,
        height: 0,
        hash,
    }
}

// A node over no child.
pub fn childless(kind: SyntaxKind) -> Over
    ensures { OverOf kind.0 nil result × Addable result 0 }
{
    let hash = kind_hash(kind);
    Over {
        count: 0,
        is_sharable: true,
        measure: Measure {
            len: 0,
            size: 1,
            height: 1,
            hash,
        },
    }
}

// Whether it stays sharable. A child that is not shared has hash 0, and then neither is the node; nor is one of more than three children.
fn stays_sharable(a: Over, hash: u64) -> bool
    ensures { result ≡ (a.is_sharable && (ltb a.count 3 && not (eqb hash 0))) }
{
    if !a.is_sharable {
        return false;
    }
    if 3 <= a.count {
        return false;
    }
    hash != 0
}

fn mixed(is_sharable: bool, h: u64, hash: u64) -> u64
    ensures { result ≡ cond is_sharable (add_word h hash) 0 }
{
    if is_sharable {
        return fx_hash::add_word(h, hash);
    }
    0
}

// A child more.
pub fn plus(a: Over, x: Measure) -> Over
    requires { RoomFor a 1 × Summable x }
    ensures { Addable result (a.count + 1) × AddsOne a x result }
{
    let is_sharable = stays_sharable(a, x.hash);
    let m = a.measure;
    let hash = mixed(is_sharable, m.hash, x.hash);
    let height = m.height.max(x.height + 1);
    let len = m.len + x.len;
    let size = m.size + x.size;
    Over {
        count: a.count + 1,
        is_sharable,
        measure: Measure {
            len,
            size,
            height,
            hash,
        },
    }
}

// The elements of these numbers more, in order.
pub fn plus_numbers(store: Store<'_, '_>, a: Over, numbers: &[u32]) -> Over
    requires all_below { AllBelow (length (entries (view store))) numbers.now }
    requires room_for { RoomFor a (length numbers.now) }
    ensures { Addable result (a.count + length numbers.now) × Adds a (trees_at (entries (view store.entry)) numbers.now) result }
{
    let mut over = a;
    for n in numbers {
        let x = store.measure_of(*n as usize);
        over = plus(over, x);
    }
    over
}

// The children `from..to` of node `n` more.
pub fn plus_children(store: Store<'_, '_>, a: Over, n: usize, from: usize, to: usize) -> Over
    requires { Range (view store) n from to × RoomFor a (to - from) }
    ensures { Addable result (a.count + (to - from)) × Adds a (trees_at (entries (view store.entry)) (slice from to (entry_at (entries (view store.entry)) n).children)) result }
{
    let mut over = a;
    for i in from..to {
        let child = store.nth_child(n, i);
        let x = store.measure_of(child.number);
        over = plus(over, x);
    }
    over
}

// A node over these children.
pub fn over_children(store: Store<'_, '_>, kind: SyntaxKind, numbers: &[u32]) -> Over
    requires { AllBelow (length (entries (view store))) numbers.now × (length numbers.now ≤ 4096) }
    ensures { OverOf kind.0 (trees_at (entries (view store.entry)) numbers.now) result }
{
    plus_numbers(store, childless(kind), numbers)
}

// Whether the highest child after an exchange is known without those that stay: one that comes is as high as any was, or none that goes was the highest.
pub fn is_height_known(own: Measure, gone: Measure, come: Measure) -> bool
    ensures { result ≡ (leb own.height come.height || ltb gone.height own.height) }
{
    own.height <= come.height || gone.height < own.height
}

// The measure of a node after an exchange that leaves it more than three children, by what it was and by nodes of its kind over the children that go and
// over those that come. So many children are never shared, and the hash is 0.
pub fn exchanged(own: Measure, gone: Measure, come: Measure) -> Measure
    requires { Exchangeable own gone come }
    ensures { AfterExchange own gone come result }
{
    let height = own.height.max(come.height);
    Measure {
        len: own.len - gone.len + come.len,
        size: own.size - gone.size + come.size,
        height,
        hash: 0,
    }
}
