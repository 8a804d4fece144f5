// The IRI that an IRIREF or a prefixed name stands for, with the refusals 7, 9, 10 and 11; and what the directives do
// with it, with 12. An IRI that the token and the work slice hold already is not written out.
#![tactic(auto)]

ghost use Rattle.std.specs.Prelude.{◌≡◌, false, not, ◌&&◌, ◌+◌, ◌≤◌, ◌<◌, length, get_or};
ghost use Rattle.text.specs.Text.{Text, is, empty};
ghost use Rattle.limits.specs.Limits.{iri_limit, prefix_limit};
ghost use Rattle.limits.specs.Refusal.{code};
ghost use Rattle.token.specs.Kind.{kind_code, IRIREF, PNAME_NS, PNAME_LN};
ghost use Rattle.escape.specs.Escape.{unescape};
ghost use Rattle.spelling.specs.Form.{undo};
ghost use Rattle.iri.specs.Iri.{has_scheme};
ghost use Rattle.iri.specs.Code.{before};
ghost use Rattle.environment.specs.Code.{environment_in, Usable};
ghost use Rattle.dataset.specs.Constructors.{inner};
ghost use Rattle.token_iri.specs.Tests.{Sound};
ghost use Rattle.token_iri.specs.Addresses.{answered, Addresses, WritesReference, LocalFrom, GoodReference, DeclaresNamespace, DeclaresBase};

use environment::{BaseTooLong, DeclareError, Layout};
use escape::Escapes;
use iri::ResolveError;
use limits::{Limits, Refusal};
use spelling::Form;
use token::Kind;

// The IRI is work[start..end] before a back of this form, which is from..to of the buffer or of the token.
#[derive(Clone, Copy)]
pub struct Address {
    pub start: usize,
    pub end: usize,
    pub form: Form,
    pub from: usize,
    pub to: usize,
    pub buffered: bool,
}

// What stands between < and >.
fn inside<'a>(token: &'a [u8]) -> &'a [u8]
    ensures { result.now ≡ inner 1 token.now }
{
    if token.len() < 2 {
        return &token[0..0];
    }
    let end = token.len() - 1;
    &token[1..end]
}

// Whether the reference is relative and there is no base.
fn lacks_base(base: &[u8], text: &[u8]) -> bool
    ensures { result ≡ (not (has_scheme (unescape text.now)) && empty base.now) }
{
    if base.is_empty() {
        return !iri::has_scheme_unescaped(text);
    }
    false
}

// Writes the IRI of a reference into the front of the buffer.
fn write_reference(
    text: &[u8],
    work: &[u8],
    st: &[usize; Layout::WORDS],
    buffer: &mut [u8],
) -> Result<usize, ResolveError>
    requires { length buffer.old ≡ iri_limit }
    ensures { WritesReference text.now work.now st.now buffer.new result }
{
    let base = environment::base(work, st);
    if lacks_base(base, text) {
        return Err(ResolveError::NoBase);
    }
    let n = escape::undone_length(Escapes::Quoted, text);
    if Limits::IRI < n {
        return Err(ResolveError::Long);
    }
    let start = Limits::IRI - n;
    escape::write_undone(Escapes::Quoted, text, &mut buffer[start..]);
    iri::resolve(base, buffer, n)
}

// Whether a reference in this form has a scheme.
fn with_scheme(form: Form, text: &[u8]) -> bool
    requires { undo form text.now ≡ unescape text.now }
    ensures { result ≡ has_scheme (unescape text.now) }
{
    match form {
        Form::Plain => iri::has_scheme(text),
        Form::Escaped => iri::has_scheme_unescaped(text),
        Form::Reserved => iri::has_scheme_unescaped(text),
    }
}

// A reference with a scheme stays in the token; any other is resolved into the buffer.
fn reference_address(
    token: &[u8],
    work: &[u8],
    st: &[usize; Layout::WORDS],
    buffer: &mut [u8],
) -> Result<Address, Refusal>
    requires { length buffer.old ≡ iri_limit }
    ensures { Addresses (kind_code IRIREF) token.now work.now st.now buffer.new (answered result) }
{
    if escape::has_bad_escape(token) {
        return Err(Refusal::Escape);
    }
    let text = inside(token);
    let form = spelling::simplest(Form::Escaped, text);
    if with_scheme(form, text) {
        if Limits::IRI < spelling::undone_length(form, text) {
            return Err(Refusal::IriLength);
        }
        return Ok(Address {
            start: 0,
            end: 0,
            form: form,
            from: 1,
            to: token.len() - 1,
            buffered: false,
        });
    }
    let a = write_reference(text, work, st, buffer);
    match a {
        Err(ResolveError::NoBase) => Err(Refusal::NoBase),
        Err(ResolveError::Long) => Err(Refusal::IriLength),
        Ok(k) => Ok(Address {
            start: 0,
            end: 0,
            form: Form::Plain,
            from: 0,
            to: k,
            buffered: true,
        }),
    }
}

// Where the first colon stands; the length where there is none.
pub fn colon(s: &[u8]) -> usize
    ensures { (result ≡ before (is ":") s.now) × (result ≤ length s.now) }
{
    let mut i: usize = 0;
    while i < s.len() {
        if s[i] == 58 {
            return i;
        }
        i += 1;
    }
    i
}

// Where the local part begins.
fn local_start(s: &[u8], at: usize) -> usize
    requires { at ≤ length s.now }
    ensures { LocalFrom s.now at result }
{
    if at < s.len() {
        return at + 1;
    }
    at
}

// The namespace stays in the work slice, the local part in the token.
fn name_address(
    token: &[u8],
    kind: usize,
    work: &[u8],
    st: &[usize; Layout::WORDS],
) -> Result<Address, Refusal>
    requires { (kind_code PNAME_NS ≤ kind) × (kind ≤ kind_code PNAME_LN) }
    ensures { (buffer : Text) → Addresses kind token.now work.now st.now buffer (answered result) }
{
    if work.len() < Limits::WORK {
        return Err(Refusal::Prefix);
    }
    let at = colon(token);
    let found = environment::look_up(work, st, &token[..at]);
    let Some((start, n)) = found else {
        return Err(Refusal::Prefix);
    };
    let from = local_start(token, at);
    let form = spelling::simplest(Form::Reserved, &token[from..]);
    if Limits::IRI - n < spelling::undone_length(form, &token[from..]) {
        return Err(Refusal::IriLength);
    }
    Ok(Address {
        start: start,
        end: start + n,
        form: form,
        from: from,
        to: token.len(),
        buffered: false,
    })
}

// The IRI of an IRIREF or of a prefixed name, or the first of the refusals 7, 9, 10 and 11.
pub fn address_of(
    token: &[u8],
    kind: usize,
    work: &[u8],
    st: &[usize; Layout::WORDS],
    buffer: &mut [u8],
) -> Result<Address, Refusal>
    requires { ((kind_code IRIREF ≤ kind) × (kind ≤ kind_code PNAME_LN)) × (length buffer.old ≡ iri_limit) }
    ensures { Addresses kind token.now work.now st.now buffer.new (answered result) }
{
    if kind == Kind::IRIREF {
        return reference_address(token, work, st, buffer);
    }
    name_address(token, kind, work, st)
}

// Declares the prefix for the IRI of a reference without bad escapes; it is written into the buffer.
fn declare_written(
    token: &[u8],
    prefix: &[u8],
    work: &mut [u8],
    st: &mut [usize; Layout::WORDS],
    buffer: &mut [u8],
) -> Result<(), Refusal>
    requires { (length buffer.old ≡ iri_limit) × ((length prefix.now ≤ prefix_limit) × (GoodReference token.now × (Usable work.old st.old × Sound (environment_in work.old st.old)))) }
    ensures { DeclaresNamespace token.now prefix.now work.old work.new st.old st.new (code result) }
{
    let text = inside(token);
    let a = write_reference(text, &work[0..], st, buffer);
    match a {
        Err(ResolveError::NoBase) => Err(Refusal::NoBase),
        Err(ResolveError::Long) => Err(Refusal::IriLength),
        Ok(k) => {
            let d = environment::declare(work, st, prefix, &buffer[..k]);
            match d {
                Ok(()) => Ok(()),
                Err(DeclareError::TooLong) => Err(Refusal::IriLength),
                Err(DeclareError::TooMany) => Err(Refusal::Prefixes),
            }
        }
    }
}

// Declares the prefix for the IRI of an IRIREF: 0, or the first of the refusals 7, 10, 11 and 12.
pub fn declare_namespace(
    token: &[u8],
    prefix: &[u8],
    work: &mut [u8],
    st: &mut [usize; Layout::WORDS],
) -> Result<(), Refusal>
    requires { (get_or token.now 0 0 ≡ 60) × ((length prefix.now ≤ prefix_limit) × (Usable work.old st.old × Sound (environment_in work.old st.old))) }
    ensures { DeclaresNamespace token.now prefix.now work.old work.new st.old st.new (code result) }
{
    if escape::has_bad_escape(token) {
        return Err(Refusal::Escape);
    }
    let mut buffer = [0u8; Limits::IRI];
    declare_written(token, prefix, work, st, &mut buffer)
}

// Sets the base to the IRI of a reference without bad escapes; it is written into the buffer.
fn set_written(
    token: &[u8],
    work: &mut [u8],
    st: &mut [usize; Layout::WORDS],
    buffer: &mut [u8],
) -> Result<(), Refusal>
    requires { (length buffer.old ≡ iri_limit) × (GoodReference token.now × (Usable work.old st.old × Sound (environment_in work.old st.old))) }
    ensures { DeclaresBase token.now work.old work.new st.old st.new (code result) }
{
    let text = inside(token);
    let a = write_reference(text, &work[0..], st, buffer);
    match a {
        Err(ResolveError::NoBase) => Err(Refusal::NoBase),
        Err(ResolveError::Long) => Err(Refusal::IriLength),
        Ok(k) => {
            let d = environment::set_base(work, st, &buffer[..k]);
            match d {
                Ok(()) => Ok(()),
                Err(BaseTooLong) => Err(Refusal::IriLength),
            }
        }
    }
}

// Sets the base to the IRI of an IRIREF: 0, or the first of the refusals 7, 10 and 11.
pub fn declare_base(
    token: &[u8],
    work: &mut [u8],
    st: &mut [usize; Layout::WORDS],
) -> Result<(), Refusal>
    requires { (get_or token.now 0 0 ≡ 60) × (Usable work.old st.old × Sound (environment_in work.old st.old)) }
    ensures { DeclaresBase token.now work.old work.new st.old st.new (code result) }
{
    if escape::has_bad_escape(token) {
        return Err(Refusal::Escape);
    }
    let mut buffer = [0u8; Limits::IRI];
    set_written(token, work, st, &mut buffer)
}
