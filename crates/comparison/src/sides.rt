// The statements of one side that are not in the other.
ghost use Rattle.std.specs.Prelude.{◌≡◌, ◌+◌, ◌≤◌, ◌<◌, length};
ghost use Rattle.text.specs.Slice.{over, over_at};
ghost use Rattle.table.specs.Layout.{word_limit};
ghost use Rattle.usable.specs.Lent.{SoundRow, SoundRows};
ghost use Rattle.chains.specs.Chains.{behind};
ghost use Rattle.comparison.specs.Comparison.{any, listed, only};
ghost use Rattle.comparison.specs.Partners.{Matched};
ghost use Rattle.comparison.specs.Code.{tables_of, in_both, one, finds, On, Sought, Ready};

use crate::edition::Side;
use crate::pairs::Pairing;
use crate::values::same_statement;

// Whether the row j has a statement that is alike to that of the row i. Their keys are compared first.
fn is_match<'t, 's>(
    pairing: &Pairing<'_>,
    mine: &Side<'t, 's>,
    i: usize,
    other: &Side<'t, 's>,
    j: usize,
    key: usize,
) -> bool
    requires { (Matched pairing.now.words.now × (SoundRow (tables_of mine.now) i × SoundRow (tables_of other.now) j)) × (Sought pairing.now.words.now mine.now i other.now key × (j < other.now.links.count)) }
    ensures { result ≡ finds pairing.now.words.now mine.now i other.now j }
{
    other.links.may_have(j, key) && same_statement(pairing, mine, i, other, j)
}

// Whether a row of the chain, from a place on, has a statement that is alike to that of the row i.
fn is_found<'t, 's>(
    pairing: &Pairing<'_>,
    mine: &Side<'t, 's>,
    i: usize,
    other: &Side<'t, 's>,
    from: Option<usize>,
    key: usize,
) -> bool
    requires { (Matched pairing.now.words.now × (SoundRow (tables_of mine.now) i × SoundRows (tables_of other.now) other.now.links.count)) × (Sought pairing.now.words.now mine.now i other.now key × ((behind from ≤ other.now.links.count) × On pairing.now.words.now other.now key (behind from))) }
    ensures { result ≡ any (finds pairing.now.words.now mine.now i other.now) (behind from) }
{
    for j in other.links.along(from) {
        if is_match(pairing, mine, i, other, j, key) {
            return true;
        }
    }
    false
}

// Whether the row i is listed: the first row of a statement that is not in both.
fn is_listed<'t, 's>(
    pairing: &Pairing<'_>,
    mine: &Side<'t, 's>,
    other: &Side<'t, 's>,
    i: usize,
) -> bool
    requires { Ready pairing.now.words.now mine.now other.now × (i < mine.now.links.count) }
    ensures { result ≡ listed (in_both mine.now.edition pairing.now.words.now) (tables_of mine.now) (tables_of other.now) i }
{
    // Without heads any key finds all rows.
    let key = mine.links.key_of(i).unwrap_or(0);
    let before = mine.links.before(i);
    if is_found(pairing, mine, i, mine, before, key) {
        return false;
    }
    let first = other.links.first(key);
    !is_found(pairing, mine, i, other, first, key)
}

// Writes the number of a row that is listed, if there is room for it; the place behind it.
fn put_row(listed: bool, i: usize, out: &mut [u32], at: usize) -> usize
    requires { (i < word_limit) × (at < word_limit) }
    ensures { (out.new ≡ over_at at (one listed i) out.old) × (result ≡ at + length (one listed i)) }
{
    if !listed {
        return at;
    }
    if out.len() <= at {
        return at + 1;
    }
    out[at] = i as u32;
    at + 1
}

// Writes the rows of one side that are listed, as far as the list goes; how many they are.
pub fn put_listed<'t, 's>(
    pairing: &Pairing<'_>,
    mine: &Side<'t, 's>,
    other: &Side<'t, 's>,
    out: &mut [u32],
) -> usize
    requires { Ready pairing.now.words.now mine.now other.now × (mine.now.links.count < word_limit) }
    ensures { (out.new ≡ over (only (in_both mine.now.edition pairing.now.words.now) (tables_of mine.now) (tables_of other.now)) out.old) × (result ≡ length (only (in_both mine.now.edition pairing.now.words.now) (tables_of mine.now) (tables_of other.now))) }
{
    let mut at = 0;
    for i in 0..mine.links.count {
        at = put_row(is_listed(pairing, mine, other, i), i, out, at);
    }
    at
}

// How many rows of one side are listed.
pub fn count_listed<'t, 's>(
    pairing: &Pairing<'_>,
    mine: &Side<'t, 's>,
    other: &Side<'t, 's>,
) -> usize
    requires { Ready pairing.now.words.now mine.now other.now × (mine.now.links.count < word_limit) }
    ensures { result ≡ length (only (in_both mine.now.edition pairing.now.words.now) (tables_of mine.now) (tables_of other.now)) }
{
    put_listed(pairing, mine, other, &mut [])
}
