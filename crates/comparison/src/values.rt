// Terms and statements of two sides, compared by value: numbers and lengths before texts.
ghost use Rattle.std.specs.Prelude.{◌≡◌, ◌<◌};
ghost use Rattle.table.specs.Layout.{word_limit};
ghost use Rattle.table.specs.Usable.{text, tag, term, graph};
ghost use Rattle.usable.specs.Lent.{slices_of, bare, Sound, NoResource, SoundRow};
ghost use Rattle.comparison.specs.Comparison.{alike, alike_graph};
ghost use Rattle.comparison.specs.Partners.{Matched};
ghost use Rattle.comparison.specs.Code.{tables_of, nodes, more, finds, Tagged};

use crate::edition::{Edition, Side};
use crate::pairs::Pairing;
use table::{RowWord, Tables, TermKind, TermWord};

// Whether the blank numbers m and n of two editions stand for one node.
fn same_node(pairing: &Pairing<'_>, mine: Edition, m: usize, other: Edition, n: usize) -> bool
    requires { Matched pairing.now.words.now × ((m < word_limit) × (n < word_limit)) }
    ensures { result ≡ nodes mine other pairing.now.words.now m n }
{
    match (mine, other) {
        (Edition::Left, Edition::Right) => pairing.partner(m) == Some(n),
        (Edition::Right, Edition::Left) => pairing.partner(n) == Some(m),
        (Edition::Left, Edition::Left) | (Edition::Right, Edition::Right) => m == n,
    }
}

// The text of a term.
pub fn text_of<'s>(tables: &Tables<'_, 's>, n: usize) -> &'s [u8]
    requires { Sound (bare (slices_of tables.now)) n }
    ensures { result.now ≡ text (slices_of tables.now) n }
{
    tables.span_of(n, TermWord::START)
}

// The tag of a tagged literal.
fn tag_of<'s>(tables: &Tables<'_, 's>, n: usize) -> &'s [u8]
    requires { Tagged (slices_of tables.now) n }
    ensures { result.now ≡ tag (slices_of tables.now) n }
{
    tables.span_of(n, TermWord::FOURTH)
}

// A literal's datatype or its tag.
fn more_of<'s>(tables: &Tables<'_, 's>, n: usize) -> &'s [u8]
    requires { Sound (bare (slices_of tables.now)) n × NoResource (bare (slices_of tables.now)) n }
    ensures { result.now ≡ more (slices_of tables.now) n }
{
    if tables.term_word(n, TermWord::KIND) == TermKind::LITERAL {
        let d = tables.term_word(n, TermWord::FOURTH);
        return tables.span_of(d, TermWord::START);
    }
    tag_of(tables, n)
}

// Whether the term n of one side and the term m of another are alike.
fn same_value<'t, 's>(
    pairing: &Pairing<'_>,
    mine: &Side<'t, 's>,
    n: usize,
    other: &Side<'t, 's>,
    m: usize,
) -> bool
    requires { Matched pairing.now.words.now × (Sound (bare (tables_of mine.now)) n × Sound (bare (tables_of other.now)) m) }
    ensures { result ≡ alike (nodes mine.now.edition other.now.edition pairing.now.words.now) (term (tables_of mine.now) n) (term (tables_of other.now) m) }
{
    let kind = mine.tables.term_word(n, TermWord::KIND);
    if other.tables.term_word(m, TermWord::KIND) != kind {
        return false;
    }
    if kind == TermKind::BLANK {
        return same_node(
            pairing,
            mine.edition,
            mine.tables.term_word(n, TermWord::FOURTH),
            other.edition,
            other.tables.term_word(m, TermWord::FOURTH),
        );
    }
    if !text::same(text_of(&mine.tables, n), text_of(&other.tables, m)) {
        return false;
    }
    kind == TermKind::IRI || text::same(more_of(&mine.tables, n), more_of(&other.tables, m))
}

// Whether two graphs are alike: the default graph, 0, is no label.
fn same_graph<'t, 's>(
    pairing: &Pairing<'_>,
    mine: &Side<'t, 's>,
    n: usize,
    other: &Side<'t, 's>,
    m: usize,
) -> bool
    requires { Matched pairing.now.words.now × (((n ≡ 0 → ⊥) → Sound (bare (tables_of mine.now)) n) × ((m ≡ 0 → ⊥) → Sound (bare (tables_of other.now)) m)) }
    ensures { result ≡ alike_graph (nodes mine.now.edition other.now.edition pairing.now.words.now) (graph (tables_of mine.now) n) (graph (tables_of other.now) m) }
{
    if n == 0 {
        return m == 0;
    }
    m != 0 && same_value(pairing, mine, n, other, m)
}

// Whether the row i of one side and the row j of another have statements that are alike: the object first, in which rows differ most.
pub fn same_statement<'t, 's>(
    pairing: &Pairing<'_>,
    mine: &Side<'t, 's>,
    i: usize,
    other: &Side<'t, 's>,
    j: usize,
) -> bool
    requires { Matched pairing.now.words.now × (SoundRow (tables_of mine.now) i × SoundRow (tables_of other.now) j) }
    ensures { result ≡ finds pairing.now.words.now mine.now i other.now j }
{
    if !same_value(
        pairing,
        mine,
        mine.tables.row_word(i, RowWord::OBJECT),
        other,
        other.tables.row_word(j, RowWord::OBJECT),
    ) {
        return false;
    }
    if !same_value(
        pairing,
        mine,
        mine.tables.row_word(i, RowWord::SUBJECT),
        other,
        other.tables.row_word(j, RowWord::SUBJECT),
    ) {
        return false;
    }
    if !same_value(
        pairing,
        mine,
        mine.tables.row_word(i, RowWord::PREDICATE),
        other,
        other.tables.row_word(j, RowWord::PREDICATE),
    ) {
        return false;
    }
    same_graph(
        pairing,
        mine,
        mine.tables.row_word(i, RowWord::GRAPH),
        other,
        other.tables.row_word(j, RowWord::GRAPH),
    )
}
