// The keys of rows: statements that are alike have one key. A blank node of the left has the key of the one with which it is paired, and
// else one of its own, so that rows about such nodes are not all in one chain.
ghost use Rattle.std.specs.Prelude.{◌≡◌, ◌<◌, length};
ghost use Rattle.table.specs.Layout.{word_limit};
ghost use Rattle.table.specs.Usable.{term, graph};
ghost use Rattle.usable.specs.Lent.{slices_of, bare, Sound, SoundRow, SoundRows};
ghost use Rattle.chains.specs.Chains.{Chained};
ghost use Rattle.comparison.specs.Code.{number_key, term_key, graph_key, row_key};

use crate::edition::Edition;
use crate::pairs::Pairing;
use crate::values::text_of;
use spelling::{Multiplier, hash_bytes, stir};
use table::{RowWord, Tables, TermKind, TermWord, wide};

// The key of a blank number.
fn number_key(edition: Edition, pairing: &Pairing<'_>, m: usize) -> usize
    requires { m < word_limit }
    ensures { (result ≡ number_key edition pairing.now.words.now m) × (result < word_limit) }
{
    let paired = match edition {
        Edition::Left => pairing.partner(m),
        Edition::Right => None,
    };
    (paired.unwrap_or(m) + 1) % 4294967296
}

// The key of a term.
fn term_key(edition: Edition, pairing: &Pairing<'_>, tables: &Tables<'_, '_>, n: usize) -> usize
    requires { Sound (bare (slices_of tables.now)) n }
    ensures { (result ≡ term_key (number_key edition pairing.now.words.now) (term (slices_of tables.now) n)) × (result < word_limit) }
{
    if tables.term_word(n, TermWord::KIND) == TermKind::BLANK {
        return number_key(edition, pairing, tables.term_word(n, TermWord::FOURTH));
    }
    hash_bytes(Multiplier::FIRST, 0, text_of(tables, n))
}

// The key of a graph.
fn graph_key(edition: Edition, pairing: &Pairing<'_>, tables: &Tables<'_, '_>, n: usize) -> usize
    requires { (n ≡ 0 → ⊥) → Sound (bare (slices_of tables.now)) n }
    ensures { (result ≡ graph_key (number_key edition pairing.now.words.now) (graph (slices_of tables.now) n)) × (result < word_limit) }
{
    if n == 0 {
        return 0;
    }
    term_key(edition, pairing, tables, n)
}

// The key of the statement of the row i.
fn row_key(edition: Edition, pairing: &Pairing<'_>, tables: &Tables<'_, '_>, i: usize) -> usize
    requires { SoundRow (slices_of tables.now) i }
    ensures { (result ≡ row_key edition pairing.now.words.now (slices_of tables.now) i) × (result < word_limit) }
{
    let g = graph_key(edition, pairing, tables, tables.row_word(i, RowWord::GRAPH));
    let s = term_key(
        edition,
        pairing,
        tables,
        tables.row_word(i, RowWord::SUBJECT),
    );
    let p = term_key(
        edition,
        pairing,
        tables,
        tables.row_word(i, RowWord::PREDICATE),
    );
    let o = term_key(
        edition,
        pairing,
        tables,
        tables.row_word(i, RowWord::OBJECT),
    );
    stir(
        Multiplier::FIRST,
        stir(Multiplier::FIRST, stir(Multiplier::FIRST, g, s), p),
        o,
    )
}

// Links the rows of one side by their keys.
pub fn link_rows(
    edition: Edition,
    pairing: &Pairing<'_>,
    tables: &Tables<'_, '_>,
    chain: &mut [u32],
)
    requires { SoundRows (slices_of tables.now) tables.now.row_count }
    ensures { (length chain.new ≡ length chain.old) × Chained chain.new tables.now.row_count (row_key edition pairing.now.words.now (slices_of tables.now)) }
{
    chains::link(chain, wide(tables.row_count), |i| {
        row_key(edition, pairing, tables, i)
    });
}
