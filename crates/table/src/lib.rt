// How rows and terms lie in lent slices of 32-bit words.
#![tactic(auto)]

ghost use Rattle.std.specs.Prelude.{◌≡◌, ◌+◌, ◌*◌, ◌≤◌, ◌<◌, length, get_or};
ghost use Rattle.table.specs.Layout.{row_size, term_size, word_limit, span};
ghost use Rattle.table.specs.Lent.{Stands, RowStands, word_of};

// How many words a row and a term have.
#[derive(Drop)]
pub struct Layout {}

impl Layout {
    pub const ROW_WORDS: usize = 5;

    pub const TERM_WORDS: usize = 5;
}

// The words of a row: graph, subject, predicate and object by number, and the position of the object's first byte.
#[derive(Drop)]
pub struct RowWord {}

impl RowWord {
    pub const GRAPH: usize = 0;

    pub const SUBJECT: usize = 1;

    pub const PREDICATE: usize = 2;

    pub const OBJECT: usize = 3;

    pub const POSITION: usize = 4;
}

// The words of a term: its kind, the start and size of its text, and two that depend on the kind.
#[derive(Drop)]
pub struct TermWord {}

impl TermWord {
    pub const KIND: usize = 0;

    pub const START: usize = 1;

    pub const SIZE: usize = 2;

    pub const FOURTH: usize = 3;

    pub const FIFTH: usize = 4;
}

// The kinds of term.
#[derive(Drop)]
pub struct TermKind {}

impl TermKind {
    pub const IRI: usize = 1;

    pub const BLANK: usize = 2;

    pub const LITERAL: usize = 3;

    pub const TAGGED: usize = 4;
}

// A word as a number.
pub fn wide(w: u32) -> usize
    ensures { result ≡ w }
{
    w as usize
}

// Tables as they are lent: slices that may hold anything, and how many rows, terms and bytes of the store are used. A text lives as long as
// the store, whatever becomes of rows and terms.
#[derive(Clone, Copy)]
pub struct Tables<'t, 's> {
    pub rows: &'t [u32],
    pub row_count: u32,
    pub terms: &'t [u32],
    pub term_count: u32,
    pub store: &'s [u8],
    pub store_count: u32,
}

impl<'t, 's> Tables<'t, 's> {
    // The word k of the term n, from 1 on.
    pub fn term_word(&self, n: usize, k: usize) -> usize
        requires { Stands self.now.terms.now n × (k < term_size) }
        ensures { (result ≡ word_of self.now.terms.now n k) × (result < word_limit) }
    {
        wide(self.terms[Layout::TERM_WORDS * (n - 1) + k])
    }

    // The word k of the row i, from 0 on.
    pub fn row_word(&self, i: usize, k: usize) -> usize
        requires { RowStands self.now.rows.now i × (k < row_size) }
        ensures { (result ≡ get_or self.now.rows.now (row_size * i + k) 0) × (result < word_limit) }
    {
        wide(self.rows[Layout::ROW_WORDS * i + k])
    }

    // The part of the store with a start and a size.
    pub fn part(&self, start: usize, size: usize) -> &'s [u8]
        requires { start + size ≤ length self.now.store.now }
        ensures { result.now ≡ span self.now.store.now start size }
    {
        &self.store[start..start + size]
    }

    // The part of the store whose start is the word k of a term, and whose size the word behind it: its text, or its tag.
    pub fn span_of(&self, n: usize, k: usize) -> &'s [u8]
        requires { Stands self.now.terms.now n × ((k + 1 < term_size) × (word_of self.now.terms.now n k + word_of self.now.terms.now n (k + 1) ≤ length self.now.store.now)) }
        ensures { result.now ≡ span self.now.store.now (word_of self.now.terms.now n k) (word_of self.now.terms.now n (k + 1)) }
    {
        self.part(self.term_word(n, k), self.term_word(n, k + 1))
    }
}
