// What the measuring program in bench/ calls.
#![tactic(auto)]

ghost use Rattle.std.specs.Prelude.{◌≡◌};
ghost use Rattle.table.specs.LongForm.{write};
ghost use Rattle.usable.specs.Lent.{slices};

use table::Tables;

// The length written.
#[unsafe(no_mangle)]
pub extern "C" fn bench_write(
    rows: &[u32],
    row_count: u32,
    terms: &[u32],
    term_count: u32,
    store: &[u8],
    store_count: u32,
    out: &mut [u8],
) -> usize
    ensures { result ≡ (write (slices rows.now row_count terms.now term_count store.now store_count) out.old).position }
{
    let tables = Tables {
        rows,
        row_count,
        terms,
        term_count,
        store,
        store_count,
    };
    writer::write_long_form(&tables, out).unwrap_or(0)
}
