// The writer: the long form of tables, and the answers 17 and 18.
#![tactic(auto)]

pub mod bytes;
pub mod forms;
pub mod lines;

ghost use Rattle.std.specs.Prelude.{◌≡◌};
ghost use Rattle.table.specs.LongForm.{write};
ghost use Rattle.table.specs.Written.{answer};
ghost use Rattle.usable.specs.Lent.{slices_of};

use limits::Refusal;
use table::Tables;

// Writes the long form of the tables over the front of out; the length written.
pub fn write_long_form(tables: &Tables, out: &mut [u8]) -> Result<usize, Refusal>
    ensures { answer result out.new ≡ write (slices_of tables.now) out.old }
{
    if !usable::is_usable(tables) {
        return Err(Refusal::Tables);
    }
    // So a line is short: its length is a number that the code can hold.
    prove!(tables.store_count <= u32::MAX);
    let count = tables.row_count as usize;
    if !lines::fit_lines(tables, count, out.len()) {
        return Err(Refusal::Output);
    }
    Ok(lines::put_lines(tables, count, out))
}
