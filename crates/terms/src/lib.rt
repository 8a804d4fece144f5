// Terms and rows in lent slices: looking for an equal term one by one, adding a term, adding a row.
#![tactic(auto)]

ghost use Rattle.std.specs.Prelude.{◌≡◌, true, false, [], ◌++◌, ℕ, suc, ◌+◌, ◌*◌, ◌-◌, ◌≤◌, ◌<◌, length, get_or, unwrap_or, IfSome};
ghost use Rattle.text.specs.Slice.{over_at};
ghost use Rattle.spelling.specs.Form.{joined, bad};
ghost use Rattle.spelling.specs.declared.Form.TheVariants.{Plain};
ghost use Rattle.table.specs.Layout.{row_size, term_size, entry_at, entry_words, word_limit};
ghost use Rattle.terms.specs.Sorts.{kind_of, type_of, text_in};
ghost use Rattle.terms.specs.Code.{same_rest, matches, first, Inside, Readable, fourth, next_entry, next_counts};
ghost use Rattle.terms.specs.Keeps.{Small, TermFits, Added, iri_sort, blank_sort, BlankAdded, RowAdded};

use spelling::Form;
use table::{Layout, TermKind, TermWord, wide};

// How many terms there are, how many bytes of the store they use, and how many of them are blank nodes.
#[derive(Clone, Copy)]
pub struct Counts {
    pub terms: usize,
    pub used: usize,
    pub blanks: usize,
}

// The kind of a term, and of a literal the number of its datatype's term.
#[derive(Clone, Copy)]
pub enum Sort {
    Iri,
    Blank,
    Literal(usize),
    Tagged,
}

impl Sort {
    // The kind's number.
    fn kind(self) -> usize
        ensures { result ≡ kind_of self }
    {
        match self {
            Sort::Iri => TermKind::IRI,
            Sort::Blank => TermKind::BLANK,
            Sort::Literal(_) => TermKind::LITERAL,
            Sort::Tagged => TermKind::TAGGED,
        }
    }

    // The number of a literal's datatype, 0 for any other term.
    pub fn datatype(self) -> usize
        ensures { result ≡ type_of self }
    {
        match self {
            Sort::Literal(datatype) => datatype,
            _ => 0,
        }
    }
}

// A term that is looked for, or added: its sort, its text, which is a front before a back of this form, and its tag. What takes it
// is inlined, so that its parts stay in registers: a tenth fewer instructions a term.
#[derive(Clone, Copy)]
pub struct Sought<'a> {
    pub sort: Sort,
    pub front: &'a [u8],
    pub form: Form,
    pub back: &'a [u8],
    pub tag: &'a [u8],
}

// Whether an entry of the same kind has the same datatype, or the same tag.
fn same_rest(terms: &[u32], store: &[u8], i: usize, sort: Sort, tag: &[u8]) -> bool
    requires { Inside terms.now store.now i × ((entry_at terms.now (suc i)).kind ≡ kind_of sort) }
    ensures { result ≡ same_rest store.now (entry_at terms.now (suc i)) sort tag.now }
{
    let at = Layout::TERM_WORDS * i;
    match sort {
        Sort::Literal(datatype) => wide(terms[at + TermWord::FOURTH]) == datatype,
        Sort::Tagged => {
            let start = wide(terms[at + TermWord::FOURTH]);
            let end = start + wide(terms[at + TermWord::FIFTH]);
            text::same(tag, &store[start..end])
        }
        _ => true,
    }
}

// Whether the entry at i is of the term that is sought.
#[inline(always)]
pub fn is_term(terms: &[u32], store: &[u8], i: usize, sought: &Sought<'_>) -> bool
    requires { Inside terms.now store.now i }
    ensures { result ≡ matches store.now (entry_at terms.now (suc i)) sought.now.sort (text_in sought.now) sought.now.tag.now }
{
    let at = Layout::TERM_WORDS * i;
    if wide(terms[at + TermWord::KIND]) != sought.sort.kind() {
        return false;
    }
    let start = wide(terms[at + TermWord::START]);
    let end = start + wide(terms[at + TermWord::SIZE]);
    spelling::same_joined(sought.front, sought.form, sought.back, &store[start..end])
        && same_rest(terms, store, i, sought.sort, sought.tag)
}

// The same for an IRI whose parts are as they are, which most are.
pub fn is_iri(terms: &[u32], store: &[u8], i: usize, front: &[u8], back: &[u8]) -> bool
    requires { Inside terms.now store.now i }
    ensures { result ≡ matches store.now (entry_at terms.now (suc i)) iri_sort (joined front.now Plain back.now) [] }
{
    let at = Layout::TERM_WORDS * i;
    if wide(terms[at + TermWord::KIND]) != TermKind::IRI {
        return false;
    }
    let start = wide(terms[at + TermWord::START]);
    let end = start + wide(terms[at + TermWord::SIZE]);
    spelling::same_plain(front, back, &store[start..end])
}

// The first number of such a term behind the first `from` terms.
#[inline(always)]
pub fn find_from(
    terms: &[u32],
    store: &[u8],
    from: usize,
    count: usize,
    sought: &Sought<'_>,
) -> Option<usize>
    requires { Readable terms.now store.now count × (from ≤ count) }
    ensures { (unwrap_or result 0 ≡ first (λ i. matches store.now (entry_at terms.now (suc i)) sought.now.sort (text_in sought.now) sought.now.tag.now) from (count - from)) × IfSome result (λ n. 0 < n) }
{
    for i in from..count {
        if is_term(terms, store, i, sought) {
            return Some(i + 1);
        }
    }
    None
}

// Writes words at a place.
fn put_words(words: &mut [u32], at: usize, s: &[usize])
    requires { (at + length s.now ≤ length words.old) × ((i : ℕ) → get_or s.now i 0 < word_limit) }
    ensures { words.new ≡ over_at at s.now words.old }
{
    for (i, word) in s.iter().enumerate() {
        words[at + i] = *word as u32;
    }
}

// Adds a row behind the others.
pub fn add_row(rows: &mut [u32], count: usize, row: &[usize])
    requires { (row_size * count + length row.now ≤ length rows.old) × ((i : ℕ) → get_or row.now i 0 < word_limit) }
    ensures { RowAdded rows.old rows.new count row.now }
{
    put_words(rows, Layout::ROW_WORDS * count, row);
}

fn fourth_word(counts: Counts, sort: Sort, size: usize) -> usize
    requires { counts.used + size < word_limit }
    ensures { result ≡ fourth counts sort size }
{
    match sort {
        Sort::Iri => 0,
        Sort::Blank => counts.blanks,
        Sort::Literal(datatype) => datatype,
        Sort::Tagged => counts.used + size,
    }
}

// Writes the words of a term behind those of the others.
fn put_entry(terms: &mut [u32], counts: Counts, sort: Sort, size: usize, tag: usize)
    requires { (term_size * counts.terms + term_size ≤ length terms.old) × Small counts sort (size + tag) }
    ensures { terms.new ≡ over_at (term_size * counts.terms) (entry_words (next_entry counts sort size tag)) terms.old }
{
    let five = [
        sort.kind(),
        counts.used,
        size,
        fourth_word(counts, sort, size),
        tag,
    ];
    put_words(terms, Layout::TERM_WORDS * counts.terms, &five);
}

// Writes a text, and the tag behind it, into the unused end of the store; the text's length.
fn write_bytes(store: &mut [u8], used: usize, sought: &Sought<'_>) -> usize
    requires { (used + (length (text_in sought.now) + length sought.now.tag.now) ≤ length store.old) × (bad sought.now.form sought.now.back.now ≡ false) }
    ensures { (result ≡ length (text_in sought.now)) × (store.new ≡ over_at used (text_in sought.now ++ sought.now.tag.now) store.old) }
{
    let size = spelling::write_joined(sought.front, sought.form, sought.back, &mut store[used..]);
    text::copy(sought.tag, &mut store[used + size..]);
    size
}

impl Counts {
    // With one term more, of so many bytes.
    fn with(self, sort: Sort, bytes: usize) -> Counts
        requires { Small self sort bytes }
        ensures { result ≡ next_counts self sort bytes }
    {
        Counts {
            terms: self.terms + 1,
            used: self.used + bytes,
            blanks: match sort {
                Sort::Blank => self.blanks + 1,
                _ => self.blanks,
            },
        }
    }
}

// Adds the term that is sought behind the others; the counts with it.
pub fn add(terms: &mut [u32], store: &mut [u8], counts: Counts, sought: &Sought<'_>) -> Counts
    requires { TermFits terms.old store.old counts sought.now.sort (text_in sought.now) sought.now.tag.now × (bad sought.now.form sought.now.back.now ≡ false) }
    ensures { Added terms.old terms.new store.old store.new counts result sought.now.sort (text_in sought.now) sought.now.tag.now }
{
    let size = write_bytes(store, counts.used, sought);
    put_entry(terms, counts, sought.sort, size, sought.tag.len());
    counts.with(sought.sort, size + sought.tag.len())
}

// Adds a blank node without a label, as each [ and each list cell is; the counts with it.
pub fn add_blank(terms: &mut [u32], counts: Counts) -> Counts
    requires { (term_size * counts.terms + term_size ≤ length terms.old) × Small counts blank_sort 0 }
    ensures { BlankAdded terms.old terms.new counts result }
{
    put_entry(terms, counts, Sort::Blank, 0, 0);
    counts.with(Sort::Blank, 0)
}
