// Rows as lines.
ghost use Rattle.std.specs.Prelude.{◌≡◌, leb, length};
ghost use Rattle.table.specs.Layout.{row_at};
ghost use Rattle.table.specs.LongForm.{triple_form, line, lines_from};
ghost use Rattle.usable.specs.Lent.{slices_of};
ghost use Rattle.writer.specs.Writing.{Countable, Wrote};
ghost use Rattle.writer.specs.Drawn.{Writable, part_form, WritableRow, Ready, Short};

use crate::bytes::{put, put_all};
use crate::forms::put_term;
use table::{RowWord, Tables};

// A term and a blank.
fn put_part(tables: &Tables, n: usize, out: &mut [u8], at: usize) -> usize
    requires { Writable (slices_of tables.now) n × Countable at (part_form (slices_of tables.now) n) }
    ensures { Wrote at (part_form (slices_of tables.now) n) out.old out.new result }
{
    let end = put_term(tables, n, out, at);
    put(out, end, b' ')
}

// "subject, predicate, object, dot"
fn put_triple(tables: &Tables, i: usize, out: &mut [u8], at: usize) -> usize
    requires { WritableRow (slices_of tables.now) i × Countable at (triple_form (slices_of tables.now) (row_at tables.now.rows.now i)) }
    ensures { Wrote at (triple_form (slices_of tables.now) (row_at tables.now.rows.now i)) out.old out.new result }
{
    let predicate = put_part(tables, tables.row_word(i, RowWord::SUBJECT), out, at);
    let object = put_part(
        tables,
        tables.row_word(i, RowWord::PREDICATE),
        out,
        predicate,
    );
    let dot = put_term(tables, tables.row_word(i, RowWord::OBJECT), out, object);
    put_all(b" .", out, dot)
}

// "Default graph: subject, predicate, object, dot. Otherwise label, {, the three, dot, }."
fn put_line(tables: &Tables, i: usize, out: &mut [u8], at: usize) -> usize
    requires { WritableRow (slices_of tables.now) i × Countable at (line (slices_of tables.now) (row_at tables.now.rows.now i)) }
    ensures { Wrote at (line (slices_of tables.now) (row_at tables.now.rows.now i)) out.old out.new result }
{
    let graph = tables.row_word(i, RowWord::GRAPH);
    if graph == 0 {
        let end = put_triple(tables, i, out, at);
        return put(out, end, b'\n');
    }
    let brace = put_part(tables, graph, out, at);
    let open = put_all(b"{ ", out, brace);
    let close = put_triple(tables, i, out, open);
    put_all(b" }\n", out, close)
}

// Whether the lines of so many rows are no longer than the limit.
pub fn fit_lines(tables: &Tables, count: usize, limit: usize) -> bool
    requires { Ready (slices_of tables.now) count × Short (slices_of tables.now) count }
    ensures { result ≡ leb (length (lines_from (slices_of tables.now) 0 count)) limit }
{
    let mut nowhere = [0u8; 1];
    let mut total: usize = 0;
    for i in 0..count {
        let n = put_line(tables, i, &mut nowhere, 0);
        if limit - total < n {
            return false;
        }
        total += n;
    }
    true
}

// Writes the lines of so many rows, for which there is room; their length.
pub fn put_lines(tables: &Tables, count: usize, out: &mut [u8]) -> usize
    requires { Ready (slices_of tables.now) count × Countable 0 (lines_from (slices_of tables.now) 0 count) }
    ensures { Wrote 0 (lines_from (slices_of tables.now) 0 count) out.old out.new result }
{
    let mut at: usize = 0;
    for i in 0..count {
        at = put_line(tables, i, out, at);
    }
    at
}
