// The reader's public call: what is lent is checked, everything is made ready, all statements are read, and what is left
// over is cleared.
#![tactic(auto)]

ghost use Rattle.std.specs.Prelude.{◌≡◌, ◌≤◌, length, replicate};
ghost use Rattle.limits.specs.Refusal.{code};
ghost use Rattle.environment.specs.Code.{words_size};
ghost use Rattle.machine.specs.Read.{mode_of, read_tokens};
ghost use Rattle.simulation.specs.Simulation.{Same};
ghost use Rattle.reader.specs.Reader.{lent_slices, lengths, reading, Gives, Contract};
ghost use Rattle.reader.specs.Stages.{held_slices, Checked, Started, Cleared, Finishes};

use environment::Layout;
use limits::Refusal;
use state::{Held, Words};

// What an accepted document comes to: its length, and how many rows, terms and store bytes there are.
#[derive(Clone, Copy, Debug, PartialEq, Eq)]
pub struct Accepted {
    pub position: usize,
    pub rows: usize,
    pub terms: usize,
    pub store: usize,
}

// Why a call is refused, and the position that this speaks of.
#[derive(Clone, Copy, Debug, PartialEq, Eq)]
pub struct Refused {
    pub refusal: Refusal,
    pub position: usize,
}

// Makes everything ready: the work slice is zeros but for the base, and the cursor is at the first token.
fn prepare(document: &[u8], base: &[u8], held: &mut Held<'_>)
    requires { Checked document.now base.now held.old.work.now × (held.old.st ≡ replicate words_size 0) }
    ensures same { Same held.old held.new }
    ensures started { Started document.now base.now held.old.work.now held.new.work.now held.new.st }
    ensures tables { (held.new.rows.now ≡ held.old.rows.now) × ((held.new.terms.now ≡ held.old.terms.now) × (held.new.store.now ≡ held.old.store.now)) }
{
    held.work.fill(0);
    // The checks have found it short enough.
    let _ = environment::set_base(held.work, &mut held.st, base);
    cursor::seek(document, &mut held.st, 0, 0);
}

fn clear_all(work: &mut [u8], rows: &mut [u32], terms: &mut [u32], store: &mut [u8])
    ensures { Cleared (lent_slices work.old rows.old terms.old store.old) (lent_slices work.new rows.new terms.new store.new) }
{
    work.fill(0);
    rows.fill(0);
    terms.fill(0);
    store.fill(0);
}

// An accepted document leaves its tables, and zeros in the work slice; a refused one leaves zeros in all.
fn finish(read: Result<(), Refusal>, size: usize, held: &mut Held<'_>) -> Result<Accepted, Refused>
    requires { length held.old.st ≡ words_size }
    ensures same { Same held.old held.new }
    ensures finished { Finishes size (code read) held.old.st (held_slices held.old) (held_slices held.new) (reading result) }
{
    if let Err(refusal) = read {
        clear_all(held.work, held.rows, held.terms, held.store);
        return Err(Refused {
            refusal,
            position: held.st[Words::AT],
        });
    }
    held.work.fill(0);
    Ok(Accepted {
        position: size,
        rows: held.st[Words::ROWS],
        terms: held.st[Words::TERMS],
        store: held.st[Words::USED],
    })
}

// Reads a document that 1 to 5 do not refuse.
fn read_checked(
    document: &[u8],
    base: &[u8],
    mode: u8,
    work: &mut [u8],
    rows: &mut [u32],
    terms: &mut [u32],
    store: &mut [u8],
) -> Result<Accepted, Refused>
    requires { Checked document.now base.now work.old × (mode ≤ 1) }
    ensures { Gives (read_tokens document.now mode base.now (lengths (lent_slices work.old rows.old terms.old store.old))) (lent_slices work.old rows.old terms.old store.old) (lent_slices work.new rows.new terms.new store.new) (reading result) }
{
    // The array is made in its place: a second one is two kilobytes of stack.
    let mut held = Held {
        work,
        rows,
        terms,
        store,
        st: Layout::fresh(),
    };
    prepare(document, base, &mut held);
    let read = statements::statements(document, &mut held, mode);
    finish(read, document.len(), &mut held)
}

// Reads a TriG document (mode 0) or a Turtle document (mode 1).
pub fn read(
    document: &[u8],
    base: &[u8],
    mode: u8,
    work: &mut [u8],
    rows: &mut [u32],
    terms: &mut [u32],
    store: &mut [u8],
) -> Result<Accepted, Refused>
    ensures { Contract document.now mode base.now (lent_slices work.old rows.old terms.old store.old) (lent_slices work.new rows.new terms.new store.new) (reading result) }
{
    if let Err(refusal) = checks::first_check(document, mode, base, &work[0..]) {
        return Err(Refused {
            refusal,
            position: 0,
        });
    }
    match utf8::first_bad(document) {
        Some(position) => {
            clear_all(work, rows, terms, store);
            Err(Refused {
                refusal: Refusal::Utf8,
                position,
            })
        }
        None => read_checked(document, base, mode, work, rows, terms, store),
    }
}
