// Which tokens the grammar allows at a place: the reader itself is asked.
ghost use Rattle.std.specs.Prelude.{◌≡◌, ◌+◌, ◌*◌, ◌≤◌, length, take, drop};
ghost use Rattle.text.specs.Slice.{over_at};
ghost use Rattle.token.specs.Kind.{last_kind};
ghost use Rattle.reader.specs.Reader.{lent_slices};
ghost use Rattle.diagnosis.specs.Samples.{sample, Takes, Tries};

use token::Kind;

// So many bytes a sample has: LF, the token, blanks.
const SAMPLE: usize = 8;

// A sample for each kind of token, in the order of their numbers.
const SAMPLES: [u8; SAMPLE * (Kind::LAST + 1)] =
    *b"\n       \n<x:a>  \na:     \na:b    \n_:a    \n@prefix\n@base  \n@en    \n1      \n1.0    \n1e0    \n\"a\"    \n'a'    \na      \ntrue   \nfalse  \nPREFIX \nBASE   \nGRAPH  \n.      \n,      \n;      \n[      \n]      \n(      \n)      \n{      \n}      \n^^     \n\"\"\"a\"\"\"\n'''a'''";

// Puts the sample of a kind at a place.
fn put_sample(page: &mut [u8], at: usize, kind: usize)
    requires { (kind ≤ last_kind) × (at ≤ length page.old) }
    ensures { page.new ≡ over_at at (sample kind) page.old }
{
    let samples = SAMPLES;
    let k = SAMPLE * kind;
    text::copy(&samples[k..k + SAMPLE], &mut page[at..]);
}

// Whether the grammar takes the token at this place of the text.
fn is_taken(
    text: &[u8],
    place: usize,
    mode: u8,
    work: &mut [u8],
    rows: &mut [u32],
    terms: &mut [u32],
    store: &mut [u8],
) -> bool
    ensures { Takes text.now place mode (lent_slices work.old rows.old terms.old store.old) (lent_slices work.new rows.new terms.new store.new) result }
{
    match reader::read(text, &text[..0], mode, work, rows, terms, store) {
        Ok(read) => place < read.position,
        Err(refused) if refused.position == place => 9 <= u8::from(refused.refusal),
        Err(refused) => place < refused.position,
    }
}

// Whether a token of this kind is allowed at a place, by the grammar and what stands on the page before it. The sample is written there.
pub fn is_allowed(
    page: &mut [u8],
    at: usize,
    kind: usize,
    mode: u8,
    work: &mut [u8],
    rows: &mut [u32],
    terms: &mut [u32],
    store: &mut [u8],
) -> bool
    ensures { Tries page.old at kind mode (lent_slices work.old rows.old terms.old store.old) page.new (lent_slices work.new rows.new terms.new store.new) result }
{
    if !(Kind::IRIREF..=Kind::LAST).contains(&kind) {
        return false;
    }
    if page.len().saturating_sub(at) < SAMPLE {
        return false;
    }
    put_sample(page, at, kind);
    let end = at + SAMPLE;
    is_taken(&page[..end], at + 1, mode, work, rows, terms, store)
}
