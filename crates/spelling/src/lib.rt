// The text of a term as a document gives it: a plain front, as a namespace, and a back that may hold escapes.
#![tactic(auto)]

ghost use Rattle.std.specs.Prelude.{◌≡◌, false, ◌≤◌, ◌<◌, length, drop};
ghost use Rattle.text.specs.Text.{same_text};
ghost use Rattle.text.specs.Slice.{over};
ghost use Rattle.escape.specs.Code.{undone, Written};
ghost use Rattle.spelling.specs.Form.{undo, bad, joined};
ghost use Rattle.spelling.specs.declared.Form.TheVariants.{Plain};
ghost use Rattle.spelling.specs.Hash.{first_multiplier, most_multiplier, stir, stir_4, hash_from};

use escape::{Escapes, Stretch, Stretches};
use text::wide;

// How the back is written: as it is, with the escapes of strings and references, or with those of local names.
#[derive(Clone, Copy, Debug, PartialEq, Eq)]
pub enum Form {
    Plain,
    Escaped,
    Reserved,
}

// The form in which the back is cheapest to read: without a backslash it stands for itself.
pub fn simplest(form: Form, back: &[u8]) -> Form
    ensures { (undo result back.now ≡ undo form back.now) × (bad result back.now ≡ bad form back.now) }
{
    if escape::has_backslash(back) {
        return form;
    }
    Form::Plain
}

// How long the back is with its escapes undone.
pub fn undone_length(form: Form, back: &[u8]) -> usize
    ensures { result ≡ length (undo form back.now) }
{
    match form {
        Form::Plain => back.len(),
        Form::Escaped => escape::undone_length(Escapes::Quoted, back),
        Form::Reserved => escape::undone_length(Escapes::Local, back),
    }
}

// Whether t is the back with its escapes undone.
fn same_undone(form: Form, back: &[u8], t: &[u8]) -> bool
    ensures { result ≡ same_text (undo form back.now) t.now }
{
    match form {
        Form::Plain => text::same(back, t),
        Form::Escaped => escape::same_undone(Escapes::Quoted, back, t),
        Form::Reserved => escape::same_undone(Escapes::Local, back, t),
    }
}

// Whether t is the front and the back, both as they are.
pub fn same_plain(front: &[u8], back: &[u8], t: &[u8]) -> bool
    ensures { result ≡ same_text (joined front.now Plain back.now) t.now }
{
    let size = front.len();
    if t.len() < size {
        return false;
    }
    if text::same(back, &t[size..]) {
        return text::same(front, &t[..size]);
    }
    false
}

// Whether t is the whole text. The back is looked at first: names of one namespace differ there.
pub fn same_joined(front: &[u8], form: Form, back: &[u8], t: &[u8]) -> bool
    ensures { result ≡ same_text (joined front.now form back.now) t.now }
{
    let n = front.len();
    if t.len() < n {
        return false;
    }
    if same_undone(form, back, &t[n..]) {
        return text::same(front, &t[..n]);
    }
    false
}

fn write_plain(back: &[u8], out: &mut [u8]) -> usize
    ensures { (result ≡ length back.now) × (out.new ≡ over back.now out.old) }
{
    text::copy(back, out);
    back.len()
}

// Writes the back with its escapes undone over the front of out, as far as out goes; its length.
fn write_undone(form: Form, back: &[u8], out: &mut [u8]) -> usize
    ensures { Written (bad form back.now ≡ false) (undo form back.now) out.old out.new result }
{
    match form {
        Form::Plain => write_plain(back, out),
        Form::Escaped => escape::write_undone(Escapes::Quoted, back, out),
        Form::Reserved => escape::write_undone(Escapes::Local, back, out),
    }
}

// Writes the whole text over the front of out, which has room for it; its length.
pub fn write_joined(front: &[u8], form: Form, back: &[u8], out: &mut [u8]) -> usize
    requires { length (joined front.now form back.now) ≤ length out.old }
    ensures { Written (bad form back.now ≡ false) (joined front.now form back.now) out.old out.new result }
{
    let n = front.len();
    text::copy(front, out);
    n + write_undone(form, back, &mut out[n..])
}

// The first multiplier, and its powers modulo 2^32.
#[derive(Drop)]
pub struct Multiplier {}

impl Multiplier {
    pub const FIRST: usize = 16777619;

    const SQUARE: usize = 637696617;

    const CUBE: usize = 1055306571;

    const FOURTH: usize = 1345077009;
}

// The hash h with one number more, by the multiplier m.
pub fn stir(m: usize, h: usize, n: usize) -> usize
    requires { (m ≤ most_multiplier) × ((h < 4294967296) × (n < 4294967296)) }
    ensures { (result ≡ stir m h n) × (result < 4294967296) }
{
    if m == Multiplier::FIRST {
        return (h * m + n) % 4294967296;
    }
    (h * m + h / 32768 + n) % 4294967296
}

// The hash h with four bytes more, by the first multiplier: one product lies on the way from h.
fn stir_4(h: usize, a: usize, b: usize, c: usize, d: usize) -> usize
    requires { (h < 4294967296) × ((a < 256) × ((b < 256) × ((c < 256) × (d < 256)))) }
    ensures { (result ≡ stir_4 h a b c d) × (result < 4294967296) }
{
    (h * Multiplier::FOURTH
        + (a * Multiplier::CUBE + b * Multiplier::SQUARE + c * Multiplier::FIRST + d))
        % 4294967296
}

// The hash h with the bytes of s, one by one.
fn hash_each(m: usize, h: usize, s: &[u8]) -> usize
    requires { (m ≤ most_multiplier) × (h < 4294967296) }
    ensures { (result ≡ hash_from m h s.now) × (result < 4294967296) }
{
    let mut total = h;
    for b in s {
        total = stir(m, total, wide(*b) % 256);
    }
    total
}

// The same by the first multiplier, four bytes at a time.
fn hash_first(h: usize, s: &[u8]) -> usize
    requires { h < 4294967296 }
    ensures { (result ≡ hash_from first_multiplier h s.now) × (result < 4294967296) }
{
    let mut total = h;
    let mut i: usize = 0;
    while 4 <= s.len() - i {
        total = stir_4(
            total,
            wide(s[i]),
            wide(s[i + 1]),
            wide(s[i + 2]),
            wide(s[i + 3]),
        );
        i += 4;
    }
    hash_each(Multiplier::FIRST, total, &s[i..])
}

// The hash h with the bytes of s.
pub fn hash_bytes(m: usize, h: usize, s: &[u8]) -> usize
    requires { (m ≤ most_multiplier) × (h < 4294967296) }
    ensures { (result ≡ hash_from m h s.now) × (result < 4294967296) }
{
    if m == Multiplier::FIRST {
        return hash_first(h, s);
    }
    hash_each(m, h, s)
}

// The same with bytes that are given as numbers.
fn hash_numbers(m: usize, h: usize, s: &[usize]) -> usize
    requires { (m ≤ most_multiplier) × (h < 4294967296) }
    ensures { (result ≡ hash_from m h s.now) × (result < 4294967296) }
{
    let mut total = h;
    for n in s {
        total = stir(m, total, *n % 256);
    }
    total
}

// The same with the text that s stands for.
fn hash_stretches(escapes: Escapes, m: usize, h: usize, s: &[u8]) -> usize
    requires { (m ≤ most_multiplier) × (h < 4294967296) }
    ensures { (result ≡ hash_from m h (undone escapes s.now)) × (result < 4294967296) }
{
    if !escape::has_backslash(s) {
        return hash_bytes(m, h, s);
    }
    let mut total = h;
    for part in (Stretches { escapes, rest: s }) {
        total = match part {
            Stretch::Run(run) => hash_bytes(m, total, run),
            Stretch::One(c) => hash_numbers(m, total, &c.bytes()[..c.width]),
        };
    }
    total
}

fn hash_undone(m: usize, h: usize, form: Form, back: &[u8]) -> usize
    requires { (m ≤ most_multiplier) × (h < 4294967296) }
    ensures { (result ≡ hash_from m h (undo form back.now)) × (result < 4294967296) }
{
    match form {
        Form::Plain => hash_bytes(m, h, back),
        Form::Escaped => hash_stretches(Escapes::Quoted, m, h, back),
        Form::Reserved => hash_stretches(Escapes::Local, m, h, back),
    }
}

// A number below 2^32 that depends on the multiplier and the whole text alone.
pub fn hash_joined(m: usize, front: &[u8], form: Form, back: &[u8]) -> usize
    requires { m ≤ most_multiplier }
    ensures { (result ≡ hash_from m 0 (joined front.now form back.now)) × (result < 4294967296) }
{
    hash_undone(m, hash_bytes(m, 0, front), form, back)
}
