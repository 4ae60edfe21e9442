// For this crate only: the first record that an event made of an element spelled alike.
// Equal hashes are not equal elements: they only save a comparison where they differ.

ghost use Rattle.std.specs.Prelude.{◌≡◌, true};
ghost use Rattle.definitions.specs.Tree.{token, node, is_node, same_numbers};
ghost use Rattle.definitions.specs.Hash.{token_hash};
ghost use Rattle.definitions.specs.Entry.{entry_at, tree_at, trees_at};
ghost use Rattle.definitions.specs.NodeCache.{matches, reuse};
ghost use Rattle.green.specs.Store.{entries};
ghost use Rattle.green.specs.View.{view};
ghost use Rattle.green.specs.Valid.{AllEvents, Known};
ghost use Rattle.green_new.specs.Over.{OverOf};
ghost use Rattle.node_cache.specs.Search.{found, NodeSought, FirstAlike};

use green::Store;
use green_new::measure::Over;
use utility_types::SyntaxKind;

// It is `==` written out: std's calls a function that is made for long slices, and with most tokens short and alike a build took a sixth longer.
fn same_bytes(a: &[u8], b: &[u8]) -> bool
    ensures { result ≡ same_numbers a.now b.now }
{
    if a.len() != b.len() {
        return false;
    }
    for i in 0..a.len() {
        if a[i] != b[i] {
            return false;
        }
    }
    true
}

// The first record from `from` on that has this hash; the number of records, or `from` if that is more, if there is none. It is what a search spends its time in,
// and a loop of its own compiles to a load and a comparison a record.
fn next_alike(store: Store<'_, '_>, hash: u64, from: usize) -> usize
    ensures { FirstAlike (entries (view store.entry)) hash from result }
{
    let n = store.used[0];
    for i in from..n {
        if store.hash_of(i) == hash {
            return i;
        }
    }
    from.max(n)
}

// Whether record `i` is a token of this kind and these bytes.
fn is_token(store: Store<'_, '_>, i: usize, kind: SyntaxKind, src: &[u8], hash: u64) -> bool
    requires { Known (view store) i × (hash ≡ token_hash kind.0 src.now) }
    ensures { result ≡ matches (token kind.0 src.now) (entry_at (entries (view store.entry)) i) }
{
    if store.hash_of(i) != hash {
        return false;
    }
    if store.is_node(i) {
        return false;
    }
    let its = store.kind_of(i);
    if its != kind {
        return false;
    }
    same_bytes(src, store.text_of(i))
}

// The first token of this kind and these bytes.
pub fn find_token(store: Store<'_, '_>, kind: SyntaxKind, src: &[u8], hash: u64) -> Option<usize>
    requires { hash ≡ token_hash kind.0 src.now }
    ensures { found result ≡ reuse (entries (view store.entry)) (token kind.0 src.now) }
{
    let n = store.used[0];
    let mut i = next_alike(store, hash, 0);
    while i < n {
        if is_token(store, i, kind, src, hash) {
            return Some(i);
        }
        i = next_alike(store, hash, i + 1);
    }
    None
}

// Whether the children of node `i` are these.
fn same_children(store: Store<'_, '_>, i: usize, numbers: &[u32]) -> bool
    requires { Known (view store) i × (is_node (tree_at (entries (view store)) i) ≡ true) }
    ensures { result ≡ same_numbers numbers.now (entry_at (entries (view store.entry)) i).children }
{
    if store.count_of(i) != numbers.len() {
        return false;
    }
    for (k, number) in numbers.iter().enumerate() {
        let child = store.nth_child(i, k);
        if child.number != *number as usize {
            return false;
        }
    }
    true
}

// Whether record `i` is a node that an event made, of this kind over children spelled like these: their numbers tell.
fn is_node(store: Store<'_, '_>, i: usize, kind: SyntaxKind, numbers: &[u32], hash: u64) -> bool
    requires known { Known (view store) i }
    requires node_sought { NodeSought (entries (view store)) kind.0 numbers.now hash }
    ensures { result ≡ matches (node kind.0 (trees_at (entries (view store.entry)) numbers.now)) (entry_at (entries (view store.entry)) i) }
{
    if store.hash_of(i) != hash {
        return false;
    }
    if store.tag_of(i) != 1 {
        return false;
    }
    let its = store.kind_of(i);
    if its != kind {
        return false;
    }
    same_children(store, i, numbers)
}

// The first such node, if the node is shared at all.
pub fn find_node(
    store: Store<'_, '_>,
    kind: SyntaxKind,
    numbers: &[u32],
    over: Over,
) -> Option<usize>
    requires valid { AllEvents (entries (view store)) numbers.now }
    requires over_of { OverOf kind.0 (trees_at (entries (view store)) numbers.now) over }
    ensures { found result ≡ (let es = entries (view store.entry) in reuse es (node kind.0 (trees_at es numbers.now))) }
{
    if !over.is_sharable {
        return None;
    }
    let x = over.measure;
    let hash = x.hash;
    let n = store.used[0];
    let mut i = next_alike(store, hash, 0);
    while i < n {
        if is_node(store, i, kind, numbers, hash) {
            return Some(i);
        }
        i = next_alike(store, hash, i + 1);
    }
    None
}
