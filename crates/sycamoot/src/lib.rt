// The calls that C and Rust link: reading a document, the text of a term, writing the long form, the index of subjects, its check
// and the look-up in it, the comparison of two editions. Each hands on to the call that is proved, and gives its answer in types of fixed width.
#![tactic(auto)]

ghost use Rattle.std.specs.Prelude.{◌≡◌, List, [], ℕ, ◌≤◌, length, replicate, IfOk};
ghost use Rattle.text.specs.Text.{cond};
ghost use Rattle.limits.specs.Limits.{iri_limit};
ghost use Rattle.limits.specs.Refusal.{number};
ghost use Rattle.table.specs.LongForm.{write};
ghost use Rattle.table.specs.Written.{answer as answer_of_writer};
ghost use Rattle.term_text.specs.Shown.{span_at};
ghost use Rattle.usable.specs.Lent.{slices};
ghost use Rattle.reader.specs.Reader.{lent_slices, Contract};
ghost use Rattle.look_up.specs.Look.{look};
ghost use Rattle.subject_index.specs.Index.{write as index_write, check};
ghost use Rattle.comparison.specs.Answer.{answer as answer_of};
ghost use Rattle.comparison.specs.Comparison.{compare};
ghost use Rattle.sycamoot.specs.Answers.{known_mode, reading, written, shown, checked, looked_up, compared, Tells};

use comparison::Counts;
use limits::Refusal;
use table::Tables;
use term_text::Terms;

// The reader's answer: its number, the position it speaks of, and the counts of rows, terms and store bytes.
#[repr(C)]
#[derive(Clone, Copy)]
pub struct Answer {
    pub position: u64,
    pub number: u32,
    pub rows: u32,
    pub terms: u32,
    pub store: u32,
}

// 0 and where the term's text lies in the store; or 18 and an empty part.
#[repr(C)]
#[derive(Clone, Copy)]
pub struct Text {
    pub start: u64,
    pub length: u64,
    pub number: u32,
}

// A writer's answer: 0 and the length written; 17 or 22, by the writer; or 18.
#[repr(C)]
#[derive(Clone, Copy)]
pub struct Written {
    pub position: u64,
    pub number: u32,
}

// The check's answer: 0 and whether the bytes are the index, 1 or 0; or 18 and 0.
#[repr(C)]
#[derive(Clone, Copy)]
pub struct Checked {
    pub number: u32,
    pub yes: u32,
}

// The look-up's answer: 0, how many rows the subject has and the first of them; or 23 and zeros.
#[repr(C)]
#[derive(Clone, Copy)]
pub struct Found {
    pub number: u32,
    pub rows: u32,
    pub first: u32,
}

// The comparison's answer: 0, whether the editions hold the same statements, 1 or 0, and how many are only in the left and only in the
// right; or 18, 25 or 26 and zeros.
#[repr(C)]
#[derive(Clone, Copy)]
pub struct Compared {
    pub number: u32,
    pub same: u32,
    pub left: u32,
    pub right: u32,
}

fn narrow(n: usize) -> u32
    requires { n ≤ 4294967295 }
    ensures { result ≡ n }
{
    n as u32
}

fn number_of(refusal: Refusal) -> u32
    ensures { result ≡ number refusal }
{
    u32::from(u8::from(refusal))
}

// The mode in the byte that the reader takes. It is not cut: 256 is no mode, and is not to become TriG.
fn byte_mode(mode: u32) -> u8
    ensures { result ≡ known_mode mode }
{
    if mode <= 1 {
        return mode as u8;
    }
    2
}

// Reads a TriG document (mode 0) or a Turtle document (mode 1); any other mode is refused.
#[unsafe(no_mangle)]
pub extern "C" fn sycamoot_read(
    document: &[u8],
    base: &[u8],
    mode: u32,
    work: &mut [u8],
    rows: &mut [u32],
    terms: &mut [u32],
    store: &mut [u8],
) -> Answer
    ensures { Contract document.now mode base.now (lent_slices work.old rows.old terms.old store.old) (lent_slices work.new rows.new terms.new store.new) (reading result) }
{
    let known = byte_mode(mode);
    match reader::read(document, base, known, work, rows, terms, store) {
        Ok(read) => Answer {
            position: read.position as u64,
            number: 0,
            rows: narrow(read.rows),
            terms: narrow(read.terms),
            store: narrow(read.store),
        },
        Err(refused) => Answer {
            position: refused.position as u64,
            number: number_of(refused.refusal),
            rows: 0,
            terms: 0,
            store: 0,
        },
    }
}

// Where the text of a term lies; any number and any tables may be given.
#[unsafe(no_mangle)]
pub extern "C" fn sycamoot_term_text(
    terms: &[u32],
    term_count: u32,
    store: &[u8],
    store_count: u32,
    term: u32,
) -> Text
    ensures { result ≡ shown (span_at (slices [] 0 terms.now term_count store.now store_count) term) }
{
    let lent = Terms {
        terms,
        count: term_count as usize,
        store,
        used: store_count as usize,
    };
    match lent.find_span(term as usize) {
        Some(span) => Text {
            start: span.start as u64,
            length: span.size as u64,
            number: 0,
        },
        None => Text {
            start: 0,
            length: 0,
            number: number_of(Refusal::Tables),
        },
    }
}

fn told_length(answer: Result<usize, Refusal>) -> Written
    ensures { (out : List ℕ) → written result out ≡ answer_of_writer answer out }
{
    match answer {
        Ok(length) => Written {
            position: length as u64,
            number: 0,
        },
        Err(refusal) => Written {
            position: 0,
            number: number_of(refusal),
        },
    }
}

// Writes the long form of the tables over the front of out.
#[unsafe(no_mangle)]
pub extern "C" fn sycamoot_write(
    rows: &[u32],
    row_count: u32,
    terms: &[u32],
    term_count: u32,
    store: &[u8],
    store_count: u32,
    out: &mut [u8],
) -> Written
    ensures { written result out.new ≡ write (slices rows.now row_count terms.now term_count store.now store_count) out.old }
{
    let tables = Tables {
        rows,
        row_count,
        terms,
        term_count,
        store,
        store_count,
    };
    told_length(writer::write_long_form(&tables, out))
}

// Writes the index of the tables' subjects over the front of out.
#[unsafe(no_mangle)]
pub extern "C" fn sycamoot_write_index(
    rows: &[u32],
    row_count: u32,
    terms: &[u32],
    term_count: u32,
    store: &[u8],
    store_count: u32,
    out: &mut [u8],
) -> Written
    ensures { written result out.new ≡ index_write (slices rows.now row_count terms.now term_count store.now store_count) out.old }
{
    let tables = Tables {
        rows,
        row_count,
        terms,
        term_count,
        store,
        store_count,
    };
    told_length(subject_index::write_index(&tables, out))
}

// Whether the bytes are the index of the tables' subjects.
#[unsafe(no_mangle)]
pub extern "C" fn sycamoot_check_index(
    rows: &[u32],
    row_count: u32,
    terms: &[u32],
    term_count: u32,
    store: &[u8],
    store_count: u32,
    index: &[u8],
) -> Checked
    ensures { result ≡ checked (check (slices rows.now row_count terms.now term_count store.now store_count) index.now) }
{
    let tables = Tables {
        rows,
        row_count,
        terms,
        term_count,
        store,
        store_count,
    };
    match subject_index::check_index(&tables, index) {
        Ok(yes) => Checked {
            number: 0,
            yes: u32::from(yes),
        },
        Err(unusable) => Checked {
            number: number_of(unusable),
            yes: 0,
        },
    }
}

// How many rows the subject with this address has, and the first of them, by an index; any bytes may be given.
#[unsafe(no_mangle)]
pub extern "C" fn sycamoot_look_up(address: &[u8], index: &[u8]) -> Found
    ensures { result ≡ looked_up (look iri_limit address.now index.now) }
{
    match look_up::look_up(address, index) {
        Ok(rows) => Found {
            number: 0,
            rows: rows.count,
            first: rows.first,
        },
        Err(broken) => Found {
            number: number_of(broken),
            rows: 0,
            first: 0,
        },
    }
}

// The comparison's answer in types of fixed width.
fn told(answer: Result<Counts, Refusal>) -> Compared
    requires { IfOk answer (λ c. (c.left ≤ 4294967295) × (c.right ≤ 4294967295)) }
    ensures { (left_list right_list : List ℕ) → result ≡ compared (answer_of answer left_list right_list) }
{
    match answer {
        Ok(counts) => Compared {
            number: 0,
            same: u32::from(counts.are_none()),
            left: narrow(counts.left),
            right: narrow(counts.right),
        },
        Err(refusal) => Compared {
            number: number_of(refusal),
            same: 0,
            left: 0,
            right: 0,
        },
    }
}

// Compares two editions: the numbers of the rows whose statements are only in the left, and only in the right.
#[unsafe(no_mangle)]
pub extern "C" fn sycamoot_compare(
    left_rows: &[u32],
    left_row_count: u32,
    left_terms: &[u32],
    left_term_count: u32,
    left_store: &[u8],
    left_store_count: u32,
    right_rows: &[u32],
    right_row_count: u32,
    right_terms: &[u32],
    right_term_count: u32,
    right_store: &[u8],
    right_store_count: u32,
    pairing: &[u32],
    left_list: &mut [u32],
    right_list: &mut [u32],
) -> Compared
    ensures { Tells (compare (slices left_rows.now left_row_count left_terms.now left_term_count left_store.now left_store_count) (slices right_rows.now right_row_count right_terms.now right_term_count right_store.now right_store_count) pairing.now left_list.old right_list.old) result left_list.new right_list.new }
{
    told(comparison::compare(
        &Tables {
            rows: left_rows,
            row_count: left_row_count,
            terms: left_terms,
            term_count: left_term_count,
            store: left_store,
            store_count: left_store_count,
        },
        &Tables {
            rows: right_rows,
            row_count: right_row_count,
            terms: right_terms,
            term_count: right_term_count,
            store: right_store,
            store_count: right_store_count,
        },
        pairing,
        left_list,
        right_list,
    ))
}

// The same, with words for an index, which are zero afterwards.
#[unsafe(no_mangle)]
pub extern "C" fn sycamoot_compare_indexed(
    left_rows: &[u32],
    left_row_count: u32,
    left_terms: &[u32],
    left_term_count: u32,
    left_store: &[u8],
    left_store_count: u32,
    right_rows: &[u32],
    right_row_count: u32,
    right_terms: &[u32],
    right_term_count: u32,
    right_store: &[u8],
    right_store_count: u32,
    pairing: &[u32],
    left_list: &mut [u32],
    right_list: &mut [u32],
    index: &mut [u32],
) -> Compared
    ensures { Tells (compare (slices left_rows.now left_row_count left_terms.now left_term_count left_store.now left_store_count) (slices right_rows.now right_row_count right_terms.now right_term_count right_store.now right_store_count) pairing.now left_list.old right_list.old) result left_list.new right_list.new × (index.new ≡ replicate (length index.old) 0) }
{
    told(comparison::compare_indexed(
        &Tables {
            rows: left_rows,
            row_count: left_row_count,
            terms: left_terms,
            term_count: left_term_count,
            store: left_store,
            store_count: left_store_count,
        },
        &Tables {
            rows: right_rows,
            row_count: right_row_count,
            terms: right_terms,
            term_count: right_term_count,
            store: right_store,
            store_count: right_store_count,
        },
        pairing,
        left_list,
        right_list,
        index,
    ))
}
