// Bytes and escaped texts, written from a place of the output on, as far as it goes. What lies past its end is only counted.
ghost use Rattle.std.specs.Prelude.{[], ◌∷◌, ◌≡◌, ◌+◌, ◌<◌};
ghost use Rattle.iri.specs.Iri.{forbidden};
ghost use Rattle.table.specs.LongForm.{digits, hex_digit, iri_byte, string_byte, escaped, iri_form, string_form};
ghost use Rattle.writer.specs.Writing.{Countable, Wrote, code_form, escape_of, byte_form};

use characters::bytes::is_iri;

// How a text is escaped: not at all; "the characters IRIREF forbids as \u and four capital hex digits"; "only " \ LF CR escaped".
#[derive(Clone, Copy)]
pub enum Rule {
    Plain,
    Iri,
    Literal,
}

// Writes a byte; the place behind it.
pub fn put(out: &mut [u8], at: usize, c: u8) -> usize
    requires { Countable at (c ∷ []) }
    ensures { Wrote at (c ∷ []) out.old out.new result }
{
    if at < out.len() {
        out[at] = c;
    }
    at + 1
}

// Writes the text as it is.
pub fn put_all(s: &[u8], out: &mut [u8], at: usize) -> usize
    requires { Countable at s.now }
    ensures { Wrote at s.now out.old out.new result }
{
    let mut end = at;
    for c in s {
        end = put(out, end, *c);
    }
    end
}

// Two bytes, and three.
pub fn put_two(out: &mut [u8], at: usize, c: u8, d: u8) -> usize
    requires { Countable at (c ∷ d ∷ []) }
    ensures { Wrote at (c ∷ d ∷ []) out.old out.new result }
{
    put_all(&[c, d], out, at)
}

pub fn put_three(out: &mut [u8], at: usize, c: u8, d: u8, e: u8) -> usize
    requires { Countable at (c ∷ d ∷ e ∷ []) }
    ensures { Wrote at (c ∷ d ∷ e ∷ []) out.old out.new result }
{
    put_all(&[c, d, e], out, at)
}

// Whether IRIREF forbids the byte: it has bytes below 128 of its set, and all from there on.
#[tactic(auto, using(crate::proofs::Escapes::forbidden_told))]
fn is_forbidden(c: u8) -> bool
    ensures { result ≡ forbidden c }
{
    !is_iri(c) && c < 128
}

// A hex digit, capital.
fn hex(d: u8) -> u8
    requires { d < 16 }
    ensures { result ≡ hex_digit d }
{
    if d < 10 { b'0' + d } else { b'A' - 10 + d }
}

// \u00 and two digits.
fn put_code(out: &mut [u8], at: usize, c: u8) -> usize
    requires { Countable at (code_form c) }
    ensures { Wrote at (code_form c) out.old out.new result }
{
    put_all(
        &[b'\\', b'u', b'0', b'0', hex(c / 16), hex(c % 16)],
        out,
        at,
    )
}

// A byte of an IRI, and of a literal, with its escape.
fn put_iri_byte(out: &mut [u8], at: usize, c: u8) -> usize
    requires { Countable at (iri_byte c) }
    ensures { Wrote at (iri_byte c) out.old out.new result }
{
    if is_forbidden(c) {
        return put_code(out, at, c);
    }
    put(out, at, c)
}

// What stands behind the backslash for a byte of a literal that is not written as it is.
#[tactic(auto, unfolding(crate::specs::Writing::escape_of))]
fn escape_of(c: u8) -> Option<u8>
    ensures { result ≡ escape_of c }
{
    match c {
        b'"' => Some(b'"'),
        b'\\' => Some(b'\\'),
        b'\n' => Some(b'n'),
        b'\r' => Some(b'r'),
        _ => None,
    }
}

fn put_string_byte(out: &mut [u8], at: usize, c: u8) -> usize
    requires { Countable at (string_byte c) }
    ensures { Wrote at (string_byte c) out.old out.new result }
{
    match escape_of(c) {
        Some(e) => put_all(&[b'\\', e], out, at),
        None => put(out, at, c),
    }
}

// A byte by the rule.
#[tactic(auto, unfolding(crate::specs::Writing::byte_form))]
fn put_byte(rule: Rule, out: &mut [u8], at: usize, c: u8) -> usize
    requires { Countable at (byte_form rule c) }
    ensures { Wrote at (byte_form rule c) out.old out.new result }
{
    match rule {
        Rule::Plain => put(out, at, c),
        Rule::Iri => put_iri_byte(out, at, c),
        Rule::Literal => put_string_byte(out, at, c),
    }
}

// Writes the text, escaped by the rule; the place behind it.
pub fn put_escaped(rule: Rule, s: &[u8], out: &mut [u8], at: usize) -> usize
    requires { Countable at (escaped (byte_form rule) s.now) }
    ensures { Wrote at (escaped (byte_form rule) s.now) out.old out.new result }
{
    let mut end = at;
    for c in s {
        end = put_byte(rule, out, end, *c);
    }
    end
}

// "IRIs in < >"
pub fn put_iri(s: &[u8], out: &mut [u8], at: usize) -> usize
    requires { Countable at (iri_form s.now) }
    ensures { Wrote at (iri_form s.now) out.old out.new result }
{
    let open = put(out, at, b'<');
    let close = put_escaped(Rule::Iri, s, out, open);
    put(out, close, b'>')
}

// "Literals in double quotes"
pub fn put_string(s: &[u8], out: &mut [u8], at: usize) -> usize
    requires { Countable at (string_form s.now) }
    ensures { Wrote at (string_form s.now) out.old out.new result }
{
    let open = put(out, at, b'"');
    let close = put_escaped(Rule::Literal, s, out, open);
    put(out, close, b'"')
}

// The digit for a number below ten.
fn digit(d: usize) -> u8
    requires { d < 10 }
    ensures { result ≡ 48 + d }
{
    b'0' + d as u8
}

// Writes n in decimal digits, of which there are at most so many.
pub fn put_digits(most: usize, n: usize, out: &mut [u8], at: usize) -> usize
    requires { Countable at (digits most n) }
    ensures { Wrote at (digits most n) out.old out.new result }
{
    if most == 0 {
        return at;
    }
    if n < 10 {
        return put(out, at, digit(n));
    }
    let last = put_digits(most - 1, n / 10, out, at);
    put(out, last, digit(n % 10))
}
