// For the crates above: a record's eight words, in the order that specs/Layout has.
// They are written by one function, and each is read by one of its own, so that no other module knows their places.
// Each asks that the record is there by `Known`, which says too that the store is in order, as its type does: a clause of the bound alone is longer.

ghost use Rattle.std.specs.Prelude.{◌≡◌, ◌+◌, ◌*◌, ◌≤◌, ◌<◌, length, get_or};
ghost use Rattle.std.proofs.lemmas.List.Edits.{sets};
ghost use Rattle.definitions.specs.Tree.{kind, is_node, text_len, size, height};
ghost use Rattle.definitions.specs.Hash.{hash};
ghost use Rattle.definitions.specs.Entry.{entry_at, tree_at};
ghost use Rattle.green.specs.Layout.{tag, own_count, header_words, first_of, words_of};
ghost use Rattle.green.specs.Store.{entries};
ghost use Rattle.green.specs.View.{view};
ghost use Rattle.green.specs.Valid.{Known};
ghost use Rattle.green.specs.Measure.{MeasureOf, Summable};

use crate::Store;
use utility_types::SyntaxKind;

impl Store<'_, '_> {
    // Word `f` of record `n`.
    fn word(self, n: usize, f: usize) -> u64
        requires { Known (view self) n × (f < 8) }
        ensures { result ≡ get_or (words_of (entries (view self.entry)) n) f 0 }
    {
        self.records[n * 8 + f]
    }

    // 0 for a token, 1 for a node that an event made, 2 for a node that an edit made.
    pub fn tag_of(self, n: usize) -> u64
        requires { Known (view self) n }
        ensures { result ≡ tag (entry_at (entries (view self.entry)) n) }
    {
        self.word(n, 0) / 65536
    }

    pub fn is_node(self, n: usize) -> bool
        requires { Known (view self) n }
        ensures { result ≡ is_node (tree_at (entries (view self.entry)) n) }
    {
        0 < self.tag_of(n)
    }

    pub fn kind_of(self, n: usize) -> SyntaxKind
        requires { Known (view self) n }
        ensures { result.0 ≡ kind (tree_at (entries (view self.entry)) n) }
    {
        SyntaxKind((self.word(n, 0) % 65536) as u16)
    }

    // Where its own child places or text bytes start.
    pub fn first_of(self, n: usize) -> usize
        requires { Known (view self) n }
        ensures { result ≡ first_of (entries (view self.entry)) n }
    {
        self.word(n, 1) as usize
    }

    // How many they are.
    pub fn count_of(self, n: usize) -> usize
        requires { Known (view self) n }
        ensures { result ≡ own_count (entry_at (entries (view self.entry)) n) }
    {
        self.word(n, 2) as usize
    }

    pub fn text_len(self, n: usize) -> usize
        requires { Known (view self) n }
        ensures { result ≡ text_len (tree_at (entries (view self.entry)) n) }
    {
        self.word(n, 3) as usize
    }

    pub fn size_of(self, n: usize) -> usize
        requires { Known (view self) n }
        ensures { result ≡ size (tree_at (entries (view self.entry)) n) }
    {
        self.word(n, 4) as usize
    }

    pub fn height_of(self, n: usize) -> usize
        requires { Known (view self) n }
        ensures { result ≡ height (tree_at (entries (view self.entry)) n) }
    {
        self.word(n, 5) as usize
    }

    pub fn hash_of(self, n: usize) -> u64
        requires { Known (view self) n }
        ensures { result ≡ hash (tree_at (entries (view self.entry)) n) }
    {
        self.word(n, 6)
    }
}

// What every record keeps of its element, for the node above it.
#[derive(Clone, Copy)]
pub struct Measure {
    pub len: usize,
    pub size: usize,
    pub height: usize,
    pub hash: u64,
}

impl Store<'_, '_> {
    // That of an element that is there.
    pub fn measure_of(self, n: usize) -> Measure
        requires { Known (view self) n }
        ensures { MeasureOf (tree_at (entries (view self.entry)) n) result × Summable result }
    {
        Measure {
            len: self.text_len(n),
            size: self.size_of(n),
            height: self.height_of(n),
            hash: self.hash_of(n),
        }
    }
}

// What a new record keeps of its element; the tag is 0 for a token, 1 for a node that an event makes, 2 for a node that an edit makes: a number, since it
// is part of a word in memory that C lends.
#[derive(Clone, Copy)]
pub struct Header {
    pub kind: SyntaxKind,
    pub tag: u8,
    pub first: usize,
    pub count: usize,
    pub measure: Measure,
}

// For the crates above: the eight words of record `n`.
pub fn put_record(records: &mut [u64], n: usize, header: Header)
    requires { n * 8 + 8 ≤ length records.old }
    ensures { records.new ≡ sets records.old (n * 8) (header_words header) }
{
    let at = n * 8;
    let kind = header.kind;
    let measure = header.measure;
    records[at] = kind.0 as u64 + 65536 * header.tag as u64;
    records[at + 1] = header.first as u64;
    records[at + 2] = header.count as u64;
    records[at + 3] = measure.len as u64;
    records[at + 4] = measure.size as u64;
    records[at + 5] = measure.height as u64;
    records[at + 6] = measure.hash;
    records[at + 7] = 0;
}

// For the crates above: the length word of record `n`, while child places are being written.
pub fn len_at(records: &[u64], n: usize) -> usize
    requires { n * 8 + 8 ≤ length records.now }
    ensures { result ≡ get_or records.now (n * 8 + 3) 0 }
{
    records[n * 8 + 3] as usize
}
