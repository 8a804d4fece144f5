// Terms in the long form.
ghost use Rattle.std.specs.Prelude.{◌≡◌};
ghost use Rattle.text.specs.Text.{same_text};
ghost use Rattle.dataset.specs.Terms.{xsd_string};
ghost use Rattle.table.specs.LongForm.{type_form, term_form};
ghost use Rattle.usable.specs.Lent.{slices_of};
ghost use Rattle.writer.specs.Writing.{Countable, Wrote};
ghost use Rattle.writer.specs.Drawn.{Writable, NoResource, blank_form, tag_form, literal_form};

use crate::bytes::{put, put_all, put_digits, put_iri, put_string};
use table::{Tables, TermKind, TermWord};

// Whether the text is the datatype that is not written.
fn is_xsd_string(s: &[u8]) -> bool
    ensures { result ≡ same_text s.now xsd_string }
{
    text::same(s, b"http://www.w3.org/2001/XMLSchema#string")
}

// "^^ and the type unless xsd:string"
fn put_type(datatype: &[u8], out: &mut [u8], at: usize) -> usize
    requires { Countable at (type_form datatype.now) }
    ensures { Wrote at (type_form datatype.now) out.old out.new result }
{
    if is_xsd_string(datatype) {
        return at;
    }
    let next = put_all(b"^^", out, at);
    put_iri(datatype, out, next)
}

// "@ and the tag"
fn put_tag(tag: &[u8], out: &mut [u8], at: usize) -> usize
    requires { Countable at (tag_form tag.now) }
    ensures { Wrote at (tag_form tag.now) out.old out.new result }
{
    let next = put(out, at, b'@');
    put_all(tag, out, next)
}

// "Blanks as _:b and the blank number"
fn put_blank(number: usize, out: &mut [u8], at: usize) -> usize
    requires { Countable at (blank_form number) }
    ensures { Wrote at (blank_form number) out.old out.new result }
{
    let next = put_all(b"_:b", out, at);
    put_digits(10, number, out, next)
}

// Writes a literal: its text, and its datatype or its tag.
fn put_literal(tables: &Tables, n: usize, out: &mut [u8], at: usize) -> usize
    requires { Writable (slices_of tables.now) n × (NoResource (slices_of tables.now) n × Countable at (literal_form (slices_of tables.now) n)) }
    ensures { Wrote at (literal_form (slices_of tables.now) n) out.old out.new result }
{
    let end = put_string(tables.span_of(n, TermWord::START), out, at);
    if tables.term_word(n, TermWord::KIND) == TermKind::LITERAL {
        let d = tables.term_word(n, TermWord::FOURTH);
        return put_type(tables.span_of(d, TermWord::START), out, end);
    }
    put_tag(tables.span_of(n, TermWord::FOURTH), out, end)
}

// Writes the term n; the place behind it.
pub fn put_term(tables: &Tables, n: usize, out: &mut [u8], at: usize) -> usize
    requires { Writable (slices_of tables.now) n × Countable at (term_form (slices_of tables.now) n) }
    ensures { Wrote at (term_form (slices_of tables.now) n) out.old out.new result }
{
    match tables.term_word(n, TermWord::KIND) {
        TermKind::IRI => put_iri(tables.span_of(n, TermWord::START), out, at),
        TermKind::BLANK => put_blank(tables.term_word(n, TermWord::FOURTH), out, at),
        _ => put_literal(tables, n, out, at),
    }
}
