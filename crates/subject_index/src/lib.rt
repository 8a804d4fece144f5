// The index of subjects that lies beside a file, built and checked without work memory: each record is found by a scan of all rows.
#![tactic(auto)]

ghost use Rattle.std.specs.Prelude.{◌≡◌, ◌+◌, ◌%◌, ◌^◌, ◌≤◌, ◌<◌, leb, length};
ghost use Rattle.text.specs.Text.{begins, same_text};
ghost use Rattle.text.specs.Slice.{over, over_at};
ghost use Rattle.table.specs.Layout.{row_at};
ghost use Rattle.table.specs.Usable.{text};
ghost use Rattle.table.specs.Written.{answer};
ghost use Rattle.usable.specs.Lent.{Stands, RowStands, slices_of};
ghost use Rattle.look_up.specs.Record.{rows, head_of, record_of, head_size};
ghost use Rattle.look_up.specs.Look.{rises};
ghost use Rattle.subject_index.specs.Index.{index_of, subject, write, check};
ghost use Rattle.subject_index.specs.Code.{named, subject_number, Readable, Known, SubjectIn, Ready, Chooses};

use limits::Refusal;
use look_up::Head;
use table::{RowWord, Tables, TermKind, TermWord, wide};

// A subject by the number of a term with its text; how many rows it has, and the first of them.
#[derive(Clone, Copy)]
struct Chosen {
    number: usize,
    count: usize,
    first: usize,
}

// The number of the subject of the row i where it is an IRI.
#[tactic(auto, unfolding(crate::specs::Code::subject_number, table::specs::Layout::row_at, table::specs::Layout::entry_at))]
fn subject_number(tables: &Tables, i: usize) -> Option<usize>
    requires { RowStands tables.now.rows.now i × Stands tables.now.terms.now (row_at tables.now.rows.now i).subject }
    ensures { result ≡ subject_number (slices_of tables.now) i }
{
    let n = tables.row_word(i, RowWord::SUBJECT);
    (tables.term_word(n, TermWord::KIND) == TermKind::IRI).then_some(n)
}

// The text of a term.
fn text_of<'s>(tables: &Tables<'_, 's>, n: usize) -> &'s [u8]
    requires { Readable (slices_of tables.now) n }
    ensures { result.now ≡ text (slices_of tables.now) n }
{
    tables.span_of(n, TermWord::START)
}

// Whether the text of the term n comes after that of the term before, where there is one.
fn is_above(tables: &Tables, before: Option<usize>, n: usize) -> bool
    requires { Known (slices_of tables.now) before × Readable (slices_of tables.now) n }
    ensures { result ≡ rises (named (slices_of tables.now) before) (text (slices_of tables.now) n) }
{
    match before {
        Some(before) => text::smaller(text_of(tables, before), text_of(tables, n)),
        None => true,
    }
}

// The best so far with the row i: it may have a better subject, or the same.
fn closer(tables: &Tables, i: usize, before: Option<usize>, best: Option<Chosen>) -> Option<Chosen>
    requires { (SubjectIn (slices_of tables.now) i × Known (slices_of tables.now) before) × Chooses (slices_of tables.now) (subject (slices_of tables.now)) (named (slices_of tables.now) before) i best }
    ensures { Chooses (slices_of tables.now) (subject (slices_of tables.now)) (named (slices_of tables.now) before) (i + 1) result }
{
    let Some(number) = subject_number(tables, i) else {
        return best;
    };
    if !is_above(tables, before, number) {
        return best;
    }
    let next = Chosen {
        number,
        count: 1,
        first: i,
    };
    let Some(best) = best else {
        return Some(next);
    };
    let text = text_of(tables, number);
    let known = text_of(tables, best.number);
    if text::smaller(text, known) {
        return Some(next);
    }
    if !text::same(text, known) {
        return Some(best);
    }
    Some(Chosen {
        number: best.number,
        count: best.count + 1,
        first: best.first,
    })
}

// The subject with the least text above that of the term before, and its rows.
fn next_subject(tables: &Tables, before: Option<usize>) -> Option<Chosen>
    requires { Ready (slices_of tables.now) tables.now.row_count × Known (slices_of tables.now) before }
    ensures { Chooses (slices_of tables.now) (subject (slices_of tables.now)) (named (slices_of tables.now) before) tables.now.row_count result }
{
    let mut best = None;
    for i in 0..wide(tables.row_count) {
        best = closer(tables, i, before, best);
    }
    best
}

// The lowest byte of a number.
fn low(n: usize) -> u8
    ensures { result ≡ n % 256 }
{
    (n % 256) as u8
}

// A record without its text.
fn head_of(size: usize, count: usize, first: usize) -> [u8; Head::SIZE]
    ensures { result ≡ head_of size (rows count first) }
{
    [
        Head::FIRST_MARK,
        Head::SECOND_MARK,
        low(size),
        low(size / 256),
        low(count),
        low(count / 256),
        low(count / 65536),
        low(count / 16777216),
        low(first),
        low(first / 256),
        low(first / 65536),
        low(first / 16777216),
    ]
}

// Whether the bytes begin with the record.
fn has_record(front: &[u8], text: &[u8], count: usize, first: usize) -> bool
    ensures { result ≡ begins (record_of text.now (rows count first)) front.now }
{
    let head = head_of(text.len(), count, first);
    if !text::begins(&head[..], front) {
        return false;
    }
    text::begins(text, &front[Head::SIZE..])
}

// Whether the bytes are the index.
fn is_index(tables: &Tables, bytes: &[u8]) -> bool
    requires { Ready (slices_of tables.now) tables.now.row_count }
    ensures { result ≡ same_text (index_of (subject (slices_of tables.now)) tables.now.row_count) bytes.now }
{
    let mut before = None;
    let mut at: usize = 0;
    while let Some(c) = next_subject(tables, before) {
        let text = text_of(tables, c.number);
        if !has_record(&bytes[at..], text, c.count, c.first) {
            return false;
        }
        at += Head::SIZE + text.len();
        before = Some(c.number);
    }
    at == bytes.len()
}

// Whether the bytes are the index of the tables; 18 where these are not usable.
pub fn check_index(tables: &Tables, bytes: &[u8]) -> Result<bool, Refusal>
    ensures { result ≡ check (slices_of tables.now) bytes.now }
{
    if !usable::is_usable(tables) {
        return Err(Refusal::Tables);
    }
    Ok(is_index(tables, bytes))
}

// Whether the index has at most so many bytes.
fn fits_index(tables: &Tables, room: usize) -> bool
    requires { Ready (slices_of tables.now) tables.now.row_count }
    ensures { result ≡ leb (length (index_of (subject (slices_of tables.now)) tables.now.row_count)) room }
{
    let mut before = None;
    let mut used: usize = 0;
    while let Some(c) = next_subject(tables, before) {
        let left = room - used;
        if left < Head::SIZE {
            return false;
        }
        let size = text_of(tables, c.number).len();
        if left - Head::SIZE < size {
            return false;
        }
        used += Head::SIZE + size;
        before = Some(c.number);
    }
    true
}

// Writes a record over the output, from a place on.
fn put_record(text: &[u8], count: usize, first: usize, out: &mut [u8], at: usize)
    requires { at + head_size ≤ length out.old }
    ensures { out.new ≡ over_at at (record_of text.now (rows count first)) out.old }
{
    let head = head_of(text.len(), count, first);
    text::copy(&head[..], &mut out[at..]);
    let next = at + Head::SIZE;
    text::copy(text, &mut out[next..]);
}

// Writes the index over the front of the output, which has room for it; its length.
fn put_index(tables: &Tables, out: &mut [u8]) -> usize
    requires { (Ready (slices_of tables.now) tables.now.row_count × (length (index_of (subject (slices_of tables.now)) tables.now.row_count) ≤ length out.old)) × (length out.old < 2 ^ 64) }
    ensures { (result ≡ length (index_of (subject (slices_of tables.now)) tables.now.row_count)) × (out.new ≡ over (index_of (subject (slices_of tables.now)) tables.now.row_count) out.old) }
{
    let mut before = None;
    let mut at: usize = 0;
    while let Some(c) = next_subject(tables, before) {
        let text = text_of(tables, c.number);
        put_record(text, c.count, c.first, out, at);
        at += Head::SIZE + text.len();
        before = Some(c.number);
    }
    at
}

// Writes the index of the tables over the front of out; the length written.
pub fn write_index(tables: &Tables, out: &mut [u8]) -> Result<usize, Refusal>
    ensures { answer result out.new ≡ write (slices_of tables.now) out.old }
{
    if !usable::is_usable(tables) {
        return Err(Refusal::Tables);
    }
    if !fits_index(tables, out.len()) {
        return Err(Refusal::IndexOutput);
    }
    Ok(put_index(tables, out))
}
