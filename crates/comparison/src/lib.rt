// What two editions of one file differ in. An index makes it quick: rows and pairs are found along chains in words that are lent, and
// without them by walks over all rows.
#![tactic(auto)]

pub mod edition;
pub mod keys;
pub mod pairs;
pub mod sides;
pub mod values;

ghost use Rattle.std.specs.Prelude.{◌≡◌, ◌<◌, length, replicate};
ghost use Rattle.table.specs.Layout.{word_limit};
ghost use Rattle.usable.specs.Lent.{slices_of, SoundRows};
ghost use Rattle.comparison.specs.Comparison.{compare};
ghost use Rattle.comparison.specs.Partners.{Matched};
ghost use Rattle.comparison.specs.Code.{tables_of, refusal, listing, Ready, Cut, Divides};
ghost use Rattle.comparison.specs.Answer.{answer, none_listed};

use crate::edition::{Edition, Side};
use crate::pairs::{Pair, Pairing};
use chains::Links;
use limits::Refusal;
use table::{Tables, wide};

// How many statements are only in the left and only in the right.
#[derive(Clone, Copy, Debug, PartialEq, Eq)]
pub struct Counts {
    pub left: usize,
    pub right: usize,
}

impl Counts {
    // Whether there are none on either side.
    pub fn are_none(&self) -> bool
        ensures { result ≡ none_listed self.now }
    {
        self.left == 0 && self.right == 0
    }
}

// The parts of the index: the first words are for the pairs, those behind them for the left's rows, and the rest for the right's.
#[derive(Clone, Copy)]
struct Parts {
    pairs: usize,
    left: usize,
}

// 18 for either side, then 25.
fn check(
    left: &Tables<'_, '_>,
    right: &Tables<'_, '_>,
    pairing: &[u32],
    index: &mut [u32],
) -> Result<(), Refusal>
    ensures { (result ≡ refusal (slices_of left.now) (slices_of right.now) pairing.now) × (length index.new ≡ length index.old) }
{
    if !usable::is_usable(left) {
        return Err(Refusal::Tables);
    }
    if !usable::is_usable(right) {
        return Err(Refusal::Tables);
    }
    if !pairs::is_legal(
        pairing,
        left,
        left.term_count as usize,
        right,
        right.term_count as usize,
        index,
    ) {
        return Err(Refusal::Pairing);
    }
    Ok(())
}

// The parts of so many words, where they suffice. What links and keys leave is heads, a third for each part.
fn divide(size: usize, pairs: usize, left: usize, right: usize) -> Option<Parts>
    requires { (left < word_limit) × (right < word_limit) }
    ensures { Divides size left right result }
{
    if 4294967295 < pairs {
        return None;
    }
    let heads = size.checked_sub(2 * (pairs + left + right))? / 3;
    if heads == 0 {
        return None;
    }
    Some(Parts {
        pairs: heads + 2 * pairs,
        left: heads + 2 * left,
    })
}

// Counts what is only in one of them, and writes it where the lists have room for all.
fn list<'t, 's>(
    pairing: &Pairing<'_>,
    left: &Side<'t, 's>,
    right: &Side<'t, 's>,
    left_list: &mut [u32],
    right_list: &mut [u32],
) -> Result<Counts, Refusal>
    requires { (Ready pairing.now.words.now left.now right.now × Ready pairing.now.words.now right.now left.now) × ((left.now.edition ≡ Edition.Left) × ((left.now.links.count < word_limit) × (right.now.links.count < word_limit))) }
    ensures { answer result left_list.new right_list.new ≡ listing (tables_of left.now) (tables_of right.now) pairing.now.words.now left_list.old right_list.old }
{
    let left_count = sides::count_listed(pairing, left, right);
    if left_list.len() < left_count {
        return Err(Refusal::List);
    }
    let right_count = sides::count_listed(pairing, right, left);
    if right_list.len() < right_count {
        return Err(Refusal::List);
    }
    sides::put_listed(pairing, left, right, left_list);
    sides::put_listed(pairing, right, left, right_list);
    Ok(Counts {
        left: left_count,
        right: right_count,
    })
}

// The same, once pairs and rows are linked in the parts of the index.
fn list_by(
    left: &Tables<'_, '_>,
    right: &Tables<'_, '_>,
    pairing: &[u32],
    index: &mut [u32],
    parts: Parts,
    left_list: &mut [u32],
    right_list: &mut [u32],
) -> Result<Counts, Refusal>
    requires { (Matched pairing.now × (SoundRows (slices_of left.now) left.now.row_count × SoundRows (slices_of right.now) right.now.row_count)) × Cut (length index.old) left.now.row_count right.now.row_count parts }
    ensures { answer result left_list.new right_list.new ≡ listing (slices_of left.now) (slices_of right.now) pairing.now left_list.old right_list.old }
{
    let (pair_words, row_words) = index.split_at_mut(parts.pairs);
    let (left_words, right_words) = row_words.split_at_mut(parts.left);
    let pairs = Pairing::new(pairing, pair_words);
    keys::link_rows(Edition::Left, &pairs, left, left_words);
    keys::link_rows(Edition::Right, &pairs, right, right_words);
    list(
        &pairs,
        &Side {
            edition: Edition::Left,
            tables: *left,
            links: Links::new(left_words, wide(left.row_count)),
        },
        &Side {
            edition: Edition::Right,
            tables: *right,
            links: Links::new(right_words, wide(right.row_count)),
        },
        left_list,
        right_list,
    )
}

// The comparison, which leaves the index as it was used.
fn compare_with(
    left: &Tables<'_, '_>,
    right: &Tables<'_, '_>,
    pairing: &[u32],
    left_list: &mut [u32],
    right_list: &mut [u32],
    index: &mut [u32],
) -> Result<Counts, Refusal>
    ensures { (answer result left_list.new right_list.new ≡ compare (slices_of left.now) (slices_of right.now) pairing.now left_list.old right_list.old) × (length index.new ≡ length index.old) }
{
    check(left, right, pairing, index)?;
    let parts = divide(
        index.len(),
        pairing.len() / Pair::WORDS,
        wide(left.row_count),
        wide(right.row_count),
    );
    match parts {
        Some(parts) => list_by(left, right, pairing, index, parts, left_list, right_list),
        None => {
            let none = Parts { pairs: 0, left: 0 };
            list_by(left, right, pairing, &mut [], none, left_list, right_list)
        }
    }
}

// Compares two editions, with words for an index, which are zero afterwards.
pub fn compare_indexed(
    left: &Tables<'_, '_>,
    right: &Tables<'_, '_>,
    pairing: &[u32],
    left_list: &mut [u32],
    right_list: &mut [u32],
    index: &mut [u32],
) -> Result<Counts, Refusal>
    ensures { (answer result left_list.new right_list.new ≡ compare (slices_of left.now) (slices_of right.now) pairing.now left_list.old right_list.old) × (index.new ≡ replicate (length index.old) 0) }
{
    let counts = compare_with(left, right, pairing, left_list, right_list, index);
    index.fill(0);
    counts
}

// The same without an index.
pub fn compare(
    left: &Tables<'_, '_>,
    right: &Tables<'_, '_>,
    pairing: &[u32],
    left_list: &mut [u32],
    right_list: &mut [u32],
) -> Result<Counts, Refusal>
    ensures { answer result left_list.new right_list.new ≡ compare (slices_of left.now) (slices_of right.now) pairing.now left_list.old right_list.old }
{
    compare_indexed(left, right, pairing, left_list, right_list, &mut [])
}
