// What the program longform does: reads up to 65,536 bytes of TriG from standard input, and prints its statements line by
// line, or the refusal with its number and place. It is a library so that two programs hold it to two stored outputs.
#![tactic(auto)]

ghost use Rattle.std.specs.Prelude.{◌≡◌, IfSome, OnOk, length};
ghost use Rattle.std.specs.Io.KnownBytes.{Appends};
ghost use Rattle.limits.specs.Refusal.{number};
ghost use Rattle.usable.specs.Lent.{slices_of};
ghost use Rattle.machine.specs.Read.{lends};
ghost use Rattle.printing.specs.Printed.{refusal, tables_printed, narrow, document_printed, printed};

use limits::Refusal;
use std::io;
use std::io::{Read, Write};
use table::Tables;

fn print_refusal<W: Write>(out: &mut W, why: Refusal, position: usize) -> io::Result<()>
    ensures { OnOk result (Appends (W.contents out.old) (W.contents out.new) (refusal (number why) position)) }
{
    let number = u8::from(why);
    writeln!(out, "refused {number} at {position}")
}

// A count as the writer takes it.
fn narrow(n: usize) -> u32
    ensures { result ≡ narrow n }
{
    u32::try_from(n).unwrap_or(0)
}

fn write_rows<W: Write>(out: &mut W, tables: &Tables, lines: &mut [u8]) -> io::Result<()>
    ensures { OnOk result (Appends (W.contents out.old) (W.contents out.new) (tables_printed (slices_of tables.now) (length lines.old))) }
{
    match writer::write_long_form(tables, lines) {
        Ok(n) => out.write_all(&lines[..n]),
        Err(refusal) => print_refusal(out, refusal, 0),
    }
}

fn show<W: Write>(out: &mut W, document: &[u8]) -> io::Result<()>
    ensures { OnOk result (Appends (W.contents out.old) (W.contents out.new) (document_printed (lends 131072 16384 16384 65536) 65536 document.now)) }
{
    let mut work = [0u8; 131072];
    let mut rows = [0u32; 16384];
    let mut terms = [0u32; 16384];
    let mut store = [0u8; 65536];
    let mut lines = [0u8; 65536];
    let read = reader::read(
        document,
        &document[..0],
        0,
        &mut work,
        &mut rows,
        &mut terms,
        &mut store,
    );
    match read {
        Ok(read) => {
            let tables = Tables {
                rows: &rows,
                row_count: narrow(read.rows),
                terms: &terms,
                term_count: narrow(read.terms),
                store: &store,
                store_count: narrow(read.store),
            };
            write_rows(out, &tables, &mut lines)
        }
        Err(refused) => print_refusal(out, refused.refusal, refused.position),
    }
}

// Prints the long form of what the source has.
pub fn print_long_form<R: Read, W: Write>(source: &mut R, out: &mut W) -> io::Result<()>
    ensures { OnOk result (IfSome (R.remaining source.old) (λ input. Appends (W.contents out.old) (W.contents out.new) (printed input))) }
{
    let mut page = [0u8; 65537];
    let n = input::read_full(source, &mut page)?;
    if 65536 < n {
        return print_refusal(out, Refusal::DocumentLength, 0);
    }
    show(out, &page[..n])
}
