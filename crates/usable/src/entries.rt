// What terms must be.
ghost use Rattle.std.specs.Prelude.{◌≡◌, ◌+◌, ◌*◌, ◌≤◌, ◌<◌, length};
ghost use Rattle.table.specs.Layout.{term_size};
ghost use Rattle.table.specs.Usable.{each, for_long_form, good_iri, good_datatype, good_tag, good_term};
ghost use Rattle.usable.specs.Lent.{Stands, SpanIn, lent, readable, right_kind};

use crate::tags::is_tag;
use limits::Limits;
use table::{Tables, TermKind, TermWord};

// Neither "a span leaves the used store" nor "a text is not UTF-8".
#[tactic(auto, unfolding(table::specs::Layout::entry_at))]
fn has_text(tables: &Tables, used: usize, n: usize) -> bool
    requires { Stands tables.now.terms.now n × (used ≤ length tables.now.store.now) }
    ensures { result ≡ readable (lent tables.now.terms.now 0 tables.now.store.now used) n }
{
    let start = tables.term_word(n, TermWord::START);
    let size = tables.term_word(n, TermWord::SIZE);
    start + size <= used && utf8::is_utf8(tables.part(start, size))
}

// Not: "an IRI has no scheme or is over 1,024 bytes".
#[tactic(auto, unfolding(table::specs::Layout::entry_at))]
fn is_iri(tables: &Tables, n: usize) -> bool
    requires { Stands tables.now.terms.now n × SpanIn (lent tables.now.terms.now 0 tables.now.store.now 0) n }
    ensures { result ≡ good_iri for_long_form (lent tables.now.terms.now 0 tables.now.store.now 0) n }
{
    let text = tables.span_of(n, TermWord::START);
    text.len() <= Limits::IRI && iri::has_scheme(text)
}

// Not: "a datatype is not an earlier IRI term".
#[tactic(auto, unfolding(table::specs::Layout::entry_at))]
fn has_datatype(tables: &Tables, n: usize) -> bool
    requires { Stands tables.now.terms.now n }
    ensures { result ≡ good_datatype (lent tables.now.terms.now 0 tables.now.store.now 0) n }
{
    let d = tables.term_word(n, TermWord::FOURTH);
    1 <= d && d < n && tables.term_word(d, TermWord::KIND) == TermKind::IRI
}

// Whether a tagged literal has a tag.
#[tactic(auto, unfolding(table::specs::Layout::entry_at))]
fn has_tag(tables: &Tables, used: usize, n: usize) -> bool
    requires { Stands tables.now.terms.now n × (used ≤ length tables.now.store.now) }
    ensures { result ≡ good_tag for_long_form (lent tables.now.terms.now 0 tables.now.store.now used) n }
{
    let start = tables.term_word(n, TermWord::FOURTH);
    let size = tables.term_word(n, TermWord::FIFTH);
    start + size <= used && is_tag(tables.part(start, size))
}

// Whether the term is what its kind asks for, of which there are four.
#[tactic(auto, unfolding(table::specs::Layout::entry_at))]
fn fits_kind(tables: &Tables, used: usize, n: usize) -> bool
    requires { Stands tables.now.terms.now n × ((used ≤ length tables.now.store.now) × SpanIn (lent tables.now.terms.now 0 tables.now.store.now used) n) }
    ensures { result ≡ right_kind for_long_form (lent tables.now.terms.now 0 tables.now.store.now used) n }
{
    match tables.term_word(n, TermWord::KIND) {
        TermKind::IRI => is_iri(tables, n),
        TermKind::BLANK => true,
        TermKind::LITERAL => has_datatype(tables, n),
        TermKind::TAGGED => has_tag(tables, used, n),
        _ => false,
    }
}

// Whether the term n is good: a text that can be read, and what its kind asks for.
#[tactic(auto, using(crate::proofs::Words::text_in), unfolding(table::specs::Usable::good_term))]
fn is_good(tables: &Tables, used: usize, n: usize) -> bool
    requires { Stands tables.now.terms.now n × (used ≤ length tables.now.store.now) }
    ensures { result ≡ good_term for_long_form (lent tables.now.terms.now 0 tables.now.store.now used) n }
{
    has_text(tables, used, n) && fits_kind(tables, used, n)
}

// Whether so many terms are good.
pub fn all_good(tables: &Tables, count: usize, used: usize) -> bool
    requires { (term_size * count ≤ length tables.now.terms.now) × (used ≤ length tables.now.store.now) }
    ensures { result ≡ each (good_term for_long_form (lent tables.now.terms.now 0 tables.now.store.now used)) 1 count }
{
    (1..count + 1).all(|n| is_good(tables, used, n))
}
