// Which tables the writer takes, whatever the lent slices hold.
#![tactic(auto)]

pub mod entries;
pub mod rows;
pub mod tags;

ghost use Rattle.std.specs.Prelude.{◌≡◌};
ghost use Rattle.table.specs.Usable.{for_long_form, counts_fit, usable};
ghost use Rattle.usable.specs.Lent.{slices_of};

use table::{Layout, Tables, wide};

// Not: "a count goes past its slice".
#[tactic(auto, unfolding(table::specs::Usable::counts_fit))]
fn fit_counts(tables: &Tables) -> bool
    ensures { result ≡ counts_fit (slices_of tables.now) }
{
    Layout::ROW_WORDS * wide(tables.row_count) <= tables.rows.len()
        && Layout::TERM_WORDS * wide(tables.term_count) <= tables.terms.len()
        && wide(tables.store_count) <= tables.store.len()
}

// Whether the writer takes the tables.
pub fn is_usable(tables: &Tables) -> bool
    ensures { result ≡ usable for_long_form (slices_of tables.now) }
{
    if !fit_counts(tables) {
        return false;
    }
    let count = tables.term_count as usize;
    if !entries::all_good(tables, count, tables.store_count as usize) {
        return false;
    }
    rows::all_good(tables, tables.row_count as usize, count)
}
