// The call that bench/terms.c times. C keeps what it requires.
#![tactic(auto)]

ghost use Rattle.std.specs.Prelude.{[], ◌≤◌, ◌<◌, length, drop};
ghost use Rattle.limits.specs.Limits.{work_size};
ghost use Rattle.terms.specs.Keeps.{TermFits, iri_sort};
ghost use Rattle.term_tree.specs.Holds.{Searchable};
ghost use Rattle.terms_bench.specs.Iris.{counts};

use limits::Limits;
use spelling::Form;
use terms::{Counts, Sort, Sought};

// The number of an IRI; it is added where it is new.
#[unsafe(no_mangle)]
pub extern "C" fn share_iri(
    work: &mut [u8],
    terms: &mut [u32],
    store: &mut [u8],
    count: usize,
    used: usize,
    text: &[u8],
) -> usize
    requires { Searchable terms.old store.old (drop work_size work.old) (counts count used) × (TermFits terms.old store.old (counts count used) iri_sort text.now [] × (work_size ≤ length work.old)) }
    ensures { 0 < result }
{
    let c = Counts {
        terms: count,
        used: used,
        blanks: 0,
    };
    let sought = Sought {
        sort: Sort::Iri,
        front: b"",
        form: Form::Plain,
        back: text,
        tag: b"",
    };
    match term_tree::find(&work[Limits::WORK..], terms, store, c, &sought) {
        Ok(number) => number,
        Err(slot) => {
            terms::add(terms, store, c, &sought);
            term_tree::enter(work, count, slot);
            count + 1
        }
    }
}
