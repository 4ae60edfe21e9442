// rowan's green/node_cache.rs: an event's element is found among those that events made, or made.
// The search is behind two functions of `search`, whose contracts name the entry that is reused.

#![tactic(auto)]

ghost use Rattle.std.specs.Prelude.{◌≡◌, true};
ghost use Rattle.definitions.specs.Entry.{token_entry, node_entry};
ghost use Rattle.definitions.specs.NodeCache.{share};
ghost use Rattle.green.specs.Store.{entries};
ghost use Rattle.green.specs.View.{view, view_nodes, view_tokens, node_stores, token_stores, SameNodePlaces, SameTokenPlaces};
ghost use Rattle.green.specs.Valid.{AllEvents, Valid};
ghost use Rattle.green_new.specs.Ready.{has_room};
ghost use Rattle.green_new.specs.Done.{Does};

pub mod search;

use green::Store;
use green::store_mut::{NodeStore, TokenStore};
use green_new::{limits, measure, node, token};
use utility_types::{Refusal, SyntaxKind};

// Whether an event may make one record more, with so many child places and text bytes.
fn has_event_room(store: Store<'_, '_>, places: usize, bytes: usize) -> bool
    ensures { result ≡ has_room (view store.entry) 1 places bytes }
{
    limits::has_room(store, 1, places, bytes)
}

// A token event.
pub fn token(store: &mut TokenStore<'_>, kind: SyntaxKind, src: &[u8]) -> Result<usize, Refusal>
    requires { Valid (view_tokens store.old) }
    ensures does { Does (token_stores store) (λ l es. share l es (token_entry kind.0 src.now)) result }
    ensures same { SameTokenPlaces store.old store.new }
{
    let x = measure::of_token(kind, src);
    let lent = store.read();
    let found = search::find_token(lent, kind, src, x.hash);
    if let Some(n) = found {
        return Ok(n);
    }
    if limits::MAX_LEN < src.len() {
        return Err(Refusal::TooLarge);
    }
    if !has_event_room(lent, 0, src.len()) {
        return Err(Refusal::NoRoom);
    }
    let n = store.used[0];
    token::push_token(store, kind, src, x);
    Ok(n)
}

// A finish-node event over `numbers`, which name what events made. One over too many is not looked for: more than three are never shared.
pub fn node(store: &mut NodeStore<'_>, kind: SyntaxKind, numbers: &[u32]) -> Result<usize, Refusal>
    requires { Valid (view_nodes store.old) × AllEvents (entries (view_nodes store.old)) numbers.now }
    ensures does { Does (node_stores store) (λ l es. share l es (node_entry true es kind.0 numbers.now)) result }
    ensures same { SameNodePlaces store.old store.new }
{
    let count = numbers.len();
    if limits::MAX_CHILDREN < count {
        return Err(Refusal::TooLarge);
    }
    let lent = store.read();
    let over = measure::over_children(lent, kind, numbers);
    let found = search::find_node(lent, kind, numbers, over);
    if let Some(n) = found {
        return Ok(n);
    }
    let x = over.measure;
    if !limits::is_within(x) {
        return Err(Refusal::TooLarge);
    }
    if !has_event_room(lent, count, 0) {
        return Err(Refusal::NoRoom);
    }
    let n = store.used[0];
    node::push_node(store, kind, numbers, x);
    Ok(n)
}
