// What rows must be.
ghost use Rattle.std.specs.Prelude.{◌≡◌, ◌&&◌, [], ◌*◌, ◌≤◌, length};
ghost use Rattle.table.specs.Layout.{row_size, term_size, iri_kind};
ghost use Rattle.table.specs.Usable.{each, has_kind, present, resource};
ghost use Rattle.usable.specs.Lent.{RowStands, lent, names_graph, row_test};

use table::{RowWord, Tables, TermKind, TermWord};

// Not: "a row names a missing term".
fn is_present(count: usize, n: usize) -> bool
    ensures { result ≡ present (lent [] count [] 0) n }
{
    1 <= n && n <= count
}

// Whether a graph or a subject may have the term.
#[tactic(auto, unfolding(table::specs::Layout::entry_at))]
fn is_resource(tables: &Tables, count: usize, n: usize) -> bool
    requires { term_size * count ≤ length tables.now.terms.now }
    ensures { result ≡ resource (lent tables.now.terms.now count [] 0) n }
{
    is_present(count, n)
        && matches!(
            tables.term_word(n, TermWord::KIND),
            TermKind::IRI | TermKind::BLANK
        )
}

// Whether a predicate may have the term.
#[tactic(auto, unfolding(table::specs::Layout::entry_at))]
fn is_predicate(tables: &Tables, count: usize, n: usize) -> bool
    requires { term_size * count ≤ length tables.now.terms.now }
    ensures { result ≡ present (lent tables.now.terms.now count [] 0) n && has_kind (lent tables.now.terms.now count [] 0) iri_kind n }
{
    is_present(count, n) && tables.term_word(n, TermWord::KIND) == TermKind::IRI
}

// Whether a row may have the graph: "graph 0 is the default graph".
fn is_graph(tables: &Tables, count: usize, n: usize) -> bool
    requires { term_size * count ≤ length tables.now.terms.now }
    ensures { result ≡ names_graph (lent tables.now.terms.now count [] 0) n }
{
    n == 0 || is_resource(tables, count, n)
}

// Whether the row i is good: none of its terms is missing or stands where it must not.
#[tactic(auto, unfolding(table::specs::Usable::good_row, table::specs::Layout::row_at))]
fn is_good(tables: &Tables, count: usize, i: usize) -> bool
    requires { RowStands tables.now.rows.now i × (term_size * count ≤ length tables.now.terms.now) }
    ensures { result ≡ row_test tables.now.rows.now tables.now.terms.now count i }
{
    is_graph(tables, count, tables.row_word(i, RowWord::GRAPH))
        && is_resource(tables, count, tables.row_word(i, RowWord::SUBJECT))
        && is_predicate(tables, count, tables.row_word(i, RowWord::PREDICATE))
        && is_present(count, tables.row_word(i, RowWord::OBJECT))
}

// Whether so many rows are good beside so many terms.
pub fn all_good(tables: &Tables, row_count: usize, count: usize) -> bool
    requires { (row_size * row_count ≤ length tables.now.rows.now) × (term_size * count ≤ length tables.now.terms.now) }
    ensures { result ≡ each (row_test tables.now.rows.now tables.now.terms.now count) 0 row_count }
{
    (0..row_count).all(|i| is_good(tables, count, i))
}
