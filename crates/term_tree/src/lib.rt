// An index of the terms in the part of the work slice that nothing else uses: trees by hashes of what a term is known by.
// Without it, and for terms that it has no room for, the search is linear; the answer is the same.
#![tactic(auto)]

ghost use Rattle.std.specs.Prelude.{◌≡◌, true, suc, ◌+◌, ◌*◌, ◌-◌, ◌/◌, ◌%◌, ◌≤◌, ◌<◌, ◌^◌, [], length, take, drop, unwrap_or, IfSome, MatchResult};
ghost use Rattle.limits.specs.Limits.{work_size};
ghost use Rattle.spelling.specs.Form.{joined};
ghost use Rattle.table.specs.Layout.{entry_at};
ghost use Rattle.terms.specs.Sorts.{type_of, text_in};
ghost use Rattle.terms.specs.Code.{matches, Readable};
ghost use Rattle.terms.specs.Keeps.{iri_sort};
ghost use Rattle.term_tree.specs.Slots.{slot_at, put_slot};
ghost use Rattle.term_tree.specs.Keys.{key_at, turn_of, turn_at};
ghost use Rattle.term_tree.specs.Tree.{buckets, least, Linked, Follows, Vacant, InSlots, Links};
ghost use Rattle.term_tree.specs.Holds.{found, Searchable, PartOf, Finds, Numbers};

use limits::Limits;
use spelling::{Form, Multiplier};
use terms::{Counts, Sort, Sought};

// The number in a slot.
fn slot(s: &[u8], i: usize) -> usize
    requires { 4 * i + 4 ≤ length s.now }
    ensures { result ≡ slot_at s.now i }
{
    text::four(s, 4 * i)
}

// Sets the number in a slot.
fn set_slot(s: &mut [u8], i: usize, v: usize)
    requires { (4 * i + 4 ≤ length s.old) × (v < 2 ^ 32) }
    ensures { s.new ≡ put_slot s.old i v }
{
    s[4 * i..4 * i + 4].copy_from_slice(&(v as u32).to_le_bytes());
}

// A hash of what a term is known by; the first of them chooses its bucket.
#[inline(always)]
fn key_at(k: usize, sought: &Sought<'_>) -> usize
    ensures { (result ≡ key_at k (text_in sought.now) sought.now.tag.now (type_of sought.now.sort)) × (result < 4294967296) }
{
    let m = Multiplier::FIRST + 2 * (k % 65536);
    let text = spelling::hash_joined(m, sought.front, sought.form, sought.back);
    let whole = spelling::hash_bytes(m, text, sought.tag);
    spelling::stir(m, whole, sought.sort.datatype() % 4294967296)
}

// Which way the search goes at a level.
fn turn(key: usize, level: usize) -> usize
    ensures { (result ≡ turn_of key level) × (result < 2) }
{
    key / (2 * (level % 16) + 3) % 2
}

// The hash that serves a level, where the key serves the one before.
fn next_key(key: usize, level: usize, sought: &Sought<'_>) -> usize
    requires { (key ≡ key_at ((level - 1) / 16) (text_in sought.now) sought.now.tag.now (type_of sought.now.sort)) × (0 < level) }
    ensures { result ≡ key_at (level / 16) (text_in sought.now) sought.now.tag.now (type_of sought.now.sort) }
{
    if level % 16 == 0 {
        return key_at(level / 16, sought);
    }
    key
}

// The number of the equal term in the tree of its bucket, or else the slot where it would stand.
#[inline(always)]
fn follow(
    index: &[u8],
    count: usize,
    terms: &[u32],
    store: &[u8],
    sought: &Sought<'_>,
) -> Result<usize, usize>
    requires { Linked index.now count × Readable terms.now store.now count }
    ensures { Follows index.now (key_at 0 (text_in sought.now) sought.now.tag.now (type_of sought.now.sort) % buckets index.now) (turn_at (text_in sought.now) sought.now.tag.now (type_of sought.now.sort)) (least count (buckets index.now)) (λ i. matches store.now (entry_at terms.now (suc i)) sought.now.sort (text_in sought.now) sought.now.tag.now) (found result) × MatchResult result (λ n. 0 < n) (λ s. Vacant index.now (text_in sought.now) sought.now.tag.now (type_of sought.now.sort) s × InSlots index.now s) }
{
    let m = index.len() / 12;
    if m == 0 {
        return Err(0);
    }
    let first = key_at(0, sought);
    let mut key = first;
    let mut place = first % m;
    let mut level: usize = 0;
    let mut k = slot(index, place);
    while 0 < k {
        let i = k - 1;
        if terms::is_term(terms, store, i, sought) {
            return Ok(k);
        }
        place = m + (2 * i + turn(key, level));
        level += 1;
        key = next_key(key, level, sought);
        k = slot(index, place);
    }
    Err(place)
}

// The number of the equal term, or else the slot where it would stand.
#[inline(always)]
pub fn find(
    index: &[u8],
    terms: &[u32],
    store: &[u8],
    counts: Counts,
    sought: &Sought<'_>,
) -> Result<usize, usize>
    requires { Searchable terms.now store.now index.now counts }
    ensures { Finds terms.now store.now index.now counts sought.now.sort (text_in sought.now) sought.now.tag.now (found result) × MatchResult result (λ n. 0 < n) (λ s. Vacant index.now (text_in sought.now) sought.now.tag.now (type_of sought.now.sort) s × InSlots index.now s) }
{
    let count = counts.terms;
    match follow(index, count, terms, store, sought) {
        Ok(number) => Ok(number),
        Err(slot) => {
            let from = count.min(index.len() / 12);
            terms::find_from(terms, store, from, count, sought).ok_or(slot)
        }
    }
}

// Whether the number is that of the IRI. It may be any number: its entry is compared before it is believed. Where the back has
// escapes the answer is no.
pub fn is_number(
    number: usize,
    terms: &[u32],
    store: &[u8],
    count: usize,
    front: &[u8],
    form: Form,
    back: &[u8],
) -> bool
    requires { Readable terms.now store.now count }
    ensures { result ≡ true → Numbers terms.now store.now count (joined front.now form back.now) number }
{
    match form {
        Form::Plain => {
            0 < number && number <= count && terms::is_iri(terms, store, number - 1, front, back)
        }
        Form::Escaped | Form::Reserved => false,
    }
}

// Puts the term that was added behind `count` others into its slot.
fn link(index: &mut [u8], count: usize, place: usize)
    requires { (count < 4294967295) × InSlots index.old place }
    ensures { Links index.old index.new count place }
{
    let m = index.len() / 12;
    if count < m {
        set_slot(index, place, count + 1);
    }
}

// The number of an IRI: its front is a part of the work slice, whose end is the index.
pub fn find_name(
    work: &[u8],
    start: usize,
    end: usize,
    terms: &[u32],
    store: &[u8],
    counts: Counts,
    form: Form,
    back: &[u8],
) -> Option<usize>
    requires { PartOf work.now start end × Searchable terms.now store.now (drop work_size work.now) counts }
    ensures { Finds terms.now store.now (drop work_size work.now) counts iri_sort (joined (take (end - start) (drop start work.now)) form back.now) [] (unwrap_or result 0) × IfSome result (λ n. 0 < n) }
{
    let sought = Sought {
        sort: Sort::Iri,
        front: &work[start..end],
        form: form,
        back: back,
        tag: b"",
    };
    find(&work[Limits::WORK..], terms, store, counts, &sought).ok()
}

// Puts the term that was added behind `count` others into its slot of the index at the end of the work slice.
pub fn enter(work: &mut [u8], count: usize, place: usize)
    requires { (work_size ≤ length work.old) × ((count < 4294967295) × InSlots (drop work_size work.old) place) }
    ensures { (take work_size work.new ≡ take work_size work.old) × Links (drop work_size work.old) (drop work_size work.new) count place }
{
    link(&mut work[Limits::WORK..], count, place);
}
