// Directives: @prefix, @base, PREFIX and BASE, from the keyword to the end. They change what is in force and write neither
// rows nor terms.
#![tactic(auto)]

ghost use Rattle.std.specs.Prelude.{◌≡◌, true, ◌-◌, length, get_or, take, drop};
ghost use Rattle.limits.specs.Refusal.{code};
ghost use Rattle.token.specs.Kind.{kind_code, IRIREF};
ghost use Rattle.machine.specs.Frame.{prefix_name, namespace_of, new_base, last_dot, directive};
ghost use Rattle.environment.specs.Code.{words_size};
ghost use Rattle.state.specs.Words.{kind_in, at_in, len_in};
ghost use Rattle.state.specs.Cursor.{Cursor};
ghost use Rattle.token_iri.specs.Addresses.{DeclaresNamespace, DeclaresBase};
ghost use Rattle.simulation.specs.Simulation.{code_among, Ready};
ghost use Rattle.directives.specs.Directives.{directive_kinds, Able, Prefix, Prefixed, Finishes, Directs};

use environment::Layout;
use limits::{Limits, Refusal};
use state::{Held, Words};
use token::Kind;

// The dot behind @prefix or @base.
fn final_dot(doc: &[u8], st: &mut [usize; Layout::WORDS]) -> Result<(), Refusal>
    requires { Cursor doc.now st.old × (length st.old ≡ words_size) }
    ensures { (work : _) → Finishes doc.now (directive last_dot) work work st.old st.new (code result) }
{
    if st[Words::KIND] != Kind::DOT {
        return Err(simulation::unexpected(doc, st));
    }
    nodes::pass(doc, st);
    Ok(())
}

// The IRIREF at the cursor becomes the base.
fn set_base(doc: &[u8], work: &mut [u8], st: &mut [usize; Layout::WORDS]) -> Result<(), Refusal>
    requires { Able doc.now work.old st.old × (kind_in st.old ≡ kind_code IRIREF) }
    ensures { DeclaresBase (take (len_in st.old) (drop (at_in st.old) doc.now)) work.old work.new st.old st.new (code result) }
{
    let at = st[Words::AT];
    let end = at + st[Words::LEN];
    token_iri::declare_base(&doc[at..end], work, st)
}

// The IRI of a new base, and the dot if there is to be one.
fn base_part(
    doc: &[u8],
    work: &mut &mut [u8],
    st: &mut [usize; Layout::WORDS],
    dotted: bool,
) -> Result<(), Refusal>
    requires { Able doc.now work.old.now st.old }
    ensures { Finishes doc.now (directive (new_base dotted)) work.old work.new st.old st.new (code result) }
{
    if st[Words::KIND] != Kind::IRIREF {
        return Err(simulation::unexpected(doc, st));
    }
    set_base(doc, *work, st)?;
    nodes::pass(doc, st);
    if dotted {
        return final_dot(doc, st);
    }
    Ok(())
}

// The IRIREF at the cursor becomes the namespace of the prefix that stands in the document.
fn declare(
    doc: &[u8],
    work: &mut [u8],
    st: &mut [usize; Layout::WORDS],
    from: usize,
    to: usize,
) -> Result<(), Refusal>
    requires { (Able doc.now work.old st.old × (kind_in st.old ≡ kind_code IRIREF)) × Prefix doc.now from to }
    ensures { DeclaresNamespace (take (len_in st.old) (drop (at_in st.old) doc.now)) (take (to - from) (drop from doc.now)) work.old work.new st.old st.new (code result) }
{
    let at = st[Words::AT];
    let end = at + st[Words::LEN];
    token_iri::declare_namespace(&doc[at..end], &doc[from..to], work, st)
}

// The IRI of a prefix's namespace, and the dot if there is to be one.
fn namespace_part(
    doc: &[u8],
    work: &mut &mut [u8],
    st: &mut [usize; Layout::WORDS],
    from: usize,
    to: usize,
    dotted: bool,
) -> Result<(), Refusal>
    requires { Able doc.now work.old.now st.old × Prefix doc.now from to }
    ensures { Finishes doc.now (directive (namespace_of (take (to - from) (drop from doc.now)) dotted)) work.old work.new st.old st.new (code result) }
{
    if st[Words::KIND] != Kind::IRIREF {
        return Err(simulation::unexpected(doc, st));
    }
    declare(doc, *work, st, from, to)?;
    nodes::pass(doc, st);
    if dotted {
        return final_dot(doc, st);
    }
    Ok(())
}

// How long the prefix of the PNAME_NS at the cursor is.
fn prefix_length(doc: &[u8], st: &[usize; Layout::WORDS]) -> usize
    requires { Cursor doc.now st.now × (length st.now ≡ words_size) }
    ensures { Prefixed doc.now (at_in st.now) (len_in st.now) result }
{
    let at = st[Words::AT];
    let end = at + st[Words::LEN];
    token_iri::colon(&doc[at..end])
}

// The prefix, its namespace, and the dot if there is to be one.
fn prefix_part(
    doc: &[u8],
    work: &mut &mut [u8],
    st: &mut [usize; Layout::WORDS],
    dotted: bool,
) -> Result<(), Refusal>
    requires { Able doc.now work.old.now st.old }
    ensures { Finishes doc.now (directive (prefix_name dotted)) work.old work.new st.old st.new (code result) }
{
    if st[Words::KIND] != Kind::PNAME_NS {
        return Err(simulation::unexpected(doc, st));
    }
    let at = st[Words::AT];
    let n = prefix_length(doc, st);
    if Limits::PREFIX < n {
        return Err(Refusal::IriLength);
    }
    nodes::pass(doc, st);
    namespace_part(doc, work, st, at, at + n, dotted)
}

// A directive, from its keyword to its end; or the first of the refusals 6 to 8 and 10 to 12.
pub fn directive(doc: &[u8], held: &mut Held<'_>) -> Result<(), Refusal>
    requires { Ready doc.now held.old × (code_among directive_kinds (kind_in held.old.st) ≡ true) }
    ensures { Directs doc.now held.old held.new (code result) }
{
    let kind = held.st[Words::KIND];
    nodes::pass(doc, &mut held.st);
    if kind == Kind::AT_PREFIX {
        return prefix_part(doc, &mut held.work, &mut held.st, true);
    }
    if kind == Kind::PREFIX {
        return prefix_part(doc, &mut held.work, &mut held.st, false);
    }
    if kind == Kind::AT_BASE {
        return base_part(doc, &mut held.work, &mut held.st, true);
    }
    base_part(doc, &mut held.work, &mut held.st, false)
}
