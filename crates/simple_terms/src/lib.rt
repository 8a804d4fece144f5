// The leaves of the reader's recursion: what one token writes, and the cursor behind it. They take what is
// lent together; what they call takes its slices.
#![tactic(auto)]

ghost use Rattle.std.specs.Prelude.{◌≡◌, ◌∷◌, true, ◌+◌, ◌≤◌, ◌<◌, length, get_or, take, drop};
ghost use Rattle.limits.specs.Limits.{document_limit, iri_limit, depth_limit};
ghost use Rattle.limits.specs.Refusal.{code};
ghost use Rattle.token.specs.Kind.{kind_code, IRIREF, PNAME_LN, kw_a, open_bracket, open_paren, close_paren};
ghost use Rattle.environment.specs.Code.{words_size};
ghost use Rattle.dataset.specs.Terms.{iri, blank, label, bracket, rdf_type};
ghost use Rattle.machine.specs.Memory.{term, new_term, typed, iri_term};
ghost use Rattle.token_iri.specs.Tests.{token_as};
ghost use Rattle.state.specs.Words.{kind_in, at_in, depth_in, graph_in};
ghost use Rattle.state.specs.Cursor.{Cursor, TokenHere};
ghost use Rattle.state.specs.Represents.{lent_tables, Puts};
ghost use Rattle.state.specs.Writes.{node_write, placed, opened_at, NodeFits};
ghost use Rattle.simulation.specs.Simulation.{code_among, Ready, Does};
ghost use Rattle.nodes.specs.Nodes.{term_kinds, spot_of, Spotted, Numbers, PutsTerm, Closes, Passed};
ghost use Rattle.simple_terms.specs.Leaves.{spot_in, datatype_of, PutReady, PutsToken, PutsNode};

use environment::Layout;
use limits::{Limits, Refusal};
use spelling::Form;
use state::{Held, Node, Spot, Words};
use token::Kind;

// Where the next node belongs.
fn spot_here(st: &[usize; Layout::WORDS]) -> Spot
    ensures { result ≡ spot_in st.now }
{
    Spot {
        list: st[Words::LIST] != 0,
        x: st[Words::X],
        y: st[Words::Y],
        opened: st[Words::OPENED],
        last: st[Words::LAST],
        at: st[Words::AT],
    }
}

// Goes behind an opening bracket.
fn deepen(doc: &[u8], st: &mut [usize; Layout::WORDS])
    requires { (Cursor doc.now st.old × TokenHere doc.now st.old) × ((length st.old ≡ words_size) × (depth_in st.old < depth_limit)) }
    ensures { Passed doc.now st.old st.new (depth_in st.old + 1) (graph_in st.old) }
{
    st[Words::DEPTH] = st[Words::DEPTH] + 1;
    nodes::pass(doc, st);
}

// A node that has no tag, with the row that holds it.
fn place_node(
    work: &mut [u8],
    rows: &mut [u32],
    terms: &mut [u32],
    store: &mut [u8],
    st: &mut [usize; Layout::WORDS],
    node: Node,
    back: &[u8],
    text: &[u8],
) -> Result<(), Refusal>
    requires { PutReady work.old (lent_tables rows.old terms.old store.old) st.old × NodeFits node work.old back.now text.now text.now }
    ensures { Puts (placed (spot_in st.old) (node_write node work.old back.now text.now text.now (at_in st.old))) work.old work.new (lent_tables rows.old terms.old store.old) (lent_tables rows.new terms.new store.new) st.old st.new (code result) }
{
    let spot = spot_here(st);
    placing::place(work, rows, terms, store, st, spot, node, back, text, text)
}

// The blank node of a bracket.
fn place_bracket(
    work: &mut [u8],
    rows: &mut [u32],
    terms: &mut [u32],
    store: &mut [u8],
    st: &mut [usize; Layout::WORDS],
) -> Result<(), Refusal>
    requires { PutReady work.old (lent_tables rows.old terms.old store.old) st.old }
    ensures { Puts (placed (spot_in st.old) (new_term (blank (bracket (at_in st.old))))) work.old work.new (lent_tables rows.old terms.old store.old) (lent_tables rows.new terms.new store.new) st.old st.new (code result) }
{
    let byte = [0u8; 1];
    let none = &byte[..0];
    place_node(
        work,
        rows,
        terms,
        store,
        st,
        Node {
            kind: Node::NEW,
            start: 0,
            end: 0,
            form: Form::Plain,
            text: Form::Plain,
        },
        none,
        none,
    )
}

// rdf:type.
fn place_type(
    work: &mut [u8],
    rows: &mut [u32],
    terms: &mut [u32],
    store: &mut [u8],
    st: &mut [usize; Layout::WORDS],
    token: &[u8],
) -> Result<(), Refusal>
    requires { PutReady work.old (lent_tables rows.old terms.old store.old) st.old × (length token.now ≤ document_limit) }
    ensures { Puts (placed (spot_in st.old) (term (iri rdf_type))) work.old work.new (lent_tables rows.old terms.old store.old) (lent_tables rows.new terms.new store.new) st.old st.new (code result) }
{
    place_node(
        work,
        rows,
        terms,
        store,
        st,
        Node {
            kind: Node::IRI,
            start: 0,
            end: 0,
            form: Form::Plain,
            text: Form::Plain,
        },
        b"http://www.w3.org/1999/02/22-rdf-syntax-ns#type",
        token,
    )
}

// A labelled blank node: the label stands behind "_:".
fn place_label(
    work: &mut [u8],
    rows: &mut [u32],
    terms: &mut [u32],
    store: &mut [u8],
    st: &mut [usize; Layout::WORDS],
    token: &[u8],
) -> Result<(), Refusal>
    requires { PutReady work.old (lent_tables rows.old terms.old store.old) st.old × ((length token.now ≤ document_limit) × (2 < length token.now)) }
    ensures { Puts (placed (spot_in st.old) (term (blank (label (drop 2 token.now))))) work.old work.new (lent_tables rows.old terms.old store.old) (lent_tables rows.new terms.new store.new) st.old st.new (code result) }
{
    place_node(
        work,
        rows,
        terms,
        store,
        st,
        Node {
            kind: Node::BLANK,
            start: 0,
            end: 0,
            form: Form::Plain,
            text: Form::Plain,
        },
        &token[..0],
        &token[2..],
    )
}

// The datatype of a literal that is no string, by the kind of its token, with zeros behind it; and its length.
fn datatype(kind: usize) -> [u8; 40]
    ensures { take (length (datatype_of kind)) result ≡ datatype_of kind }
{
    if kind == Kind::INTEGER {
        return *b"http://www.w3.org/2001/XMLSchema#integer";
    }
    if kind == Kind::DECIMAL {
        return *b"http://www.w3.org/2001/XMLSchema#decimal";
    }
    if kind == Kind::DOUBLE {
        return *b"http://www.w3.org/2001/XMLSchema#double\0";
    }
    *b"http://www.w3.org/2001/XMLSchema#boolean"
}

fn datatype_size(kind: usize) -> usize
    ensures { (result ≡ length (datatype_of kind)) × (result ≤ 40) }
{
    if kind == Kind::DOUBLE {
        return 39;
    }
    40
}

// A literal that is no string.
fn place_literal(
    work: &mut [u8],
    rows: &mut [u32],
    terms: &mut [u32],
    store: &mut [u8],
    st: &mut [usize; Layout::WORDS],
    token: &[u8],
    kind: usize,
) -> Result<(), Refusal>
    requires { PutReady work.old (lent_tables rows.old terms.old store.old) st.old × (length token.now ≤ document_limit) }
    ensures { Puts (placed (spot_in st.old) (typed token.now (datatype_of kind))) work.old work.new (lent_tables rows.old terms.old store.old) (lent_tables rows.new terms.new store.new) st.old st.new (code result) }
{
    let name = datatype(kind);
    let n = datatype_size(kind);
    place_node(
        work,
        rows,
        terms,
        store,
        st,
        Node {
            kind: Node::LITERAL,
            start: 0,
            end: 0,
            form: Form::Plain,
            text: Form::Plain,
        },
        &name[..n],
        token,
    )
}

// An IRI, where the buffer holds one that is written nowhere else.
fn place_address(
    work: &mut [u8],
    rows: &mut [u32],
    terms: &mut [u32],
    store: &mut [u8],
    st: &mut [usize; Layout::WORDS],
    token: &[u8],
    kind: usize,
    buffer: &mut [u8],
) -> Result<(), Refusal>
    requires { PutReady work.old (lent_tables rows.old terms.old store.old) st.old × (((kind_code IRIREF ≤ kind) × (kind ≤ kind_code PNAME_LN)) × ((kind ≡ kind_code IRIREF → get_or token.now 0 0 ≡ 60) × (length token.now ≤ document_limit))) × (length buffer.old ≡ iri_limit) }
    ensures { PutsToken (token_as kind (at_in st.old) token.now) (placed (spot_in st.old) (iri_term (token_as kind (at_in st.old) token.now))) work.old work.new (lent_tables rows.old terms.old store.old) (lent_tables rows.new terms.new store.new) st.old st.new (code result) }
{
    let a = token_iri::address_of(token, kind, &work[0..], st, buffer)?;
    let from = a.from;
    let to = a.to;
    let form = a.form;
    let node = Node {
        kind: Node::IRI,
        start: a.start,
        end: a.end,
        form: form,
        text: Form::Plain,
    };
    if a.buffered {
        return place_node(work, rows, terms, store, st, node, &buffer[from..to], token);
    }
    place_node(work, rows, terms, store, st, node, &token[from..to], token)
}

fn place_iri(
    work: &mut [u8],
    rows: &mut [u32],
    terms: &mut [u32],
    store: &mut [u8],
    st: &mut [usize; Layout::WORDS],
    token: &[u8],
    kind: usize,
) -> Result<(), Refusal>
    requires { PutReady work.old (lent_tables rows.old terms.old store.old) st.old × (((kind_code IRIREF ≤ kind) × (kind ≤ kind_code PNAME_LN)) × ((kind ≡ kind_code IRIREF → get_or token.now 0 0 ≡ 60) × (length token.now ≤ document_limit))) }
    ensures { PutsToken (token_as kind (at_in st.old) token.now) (placed (spot_in st.old) (iri_term (token_as kind (at_in st.old) token.now))) work.old work.new (lent_tables rows.old terms.old store.old) (lent_tables rows.new terms.new store.new) st.old st.new (code result) }
{
    let mut buffer = [0u8; Limits::IRI];
    place_address(work, rows, terms, store, st, token, kind, &mut buffer)
}

// The node of a term's token.
fn place_term(
    doc: &[u8],
    work: &mut [u8],
    rows: &mut [u32],
    terms: &mut [u32],
    store: &mut [u8],
    st: &mut [usize; Layout::WORDS],
) -> Result<(), Refusal>
    requires { PutReady work.old (lent_tables rows.old terms.old store.old) st.old × ((Cursor doc.now st.old × TokenHere doc.now st.old) × (code_among (kw_a ∷ term_kinds) (kind_in st.old) ≡ true)) }
    ensures { PutsNode doc.now work.old work.new (lent_tables rows.old terms.old store.old) (lent_tables rows.new terms.new store.new) st.old st.new (code result) }
{
    let kind = st[Words::KIND];
    let at = st[Words::AT];
    let end = at + st[Words::LEN];
    if kind <= Kind::PNAME_LN {
        return place_iri(work, rows, terms, store, st, &doc[at..end], kind);
    }
    if kind == Kind::BLANK_NODE_LABEL {
        return place_label(work, rows, terms, store, st, &doc[at..end]);
    }
    if kind == Kind::A {
        return place_type(work, rows, terms, store, st, &doc[at..end]);
    }
    place_literal(work, rows, terms, store, st, &doc[at..end], kind)
}

// A term of one token, other than a string: its node is at its place.
pub fn put_term(doc: &[u8], held: &mut Held<'_>) -> Result<(), Refusal>
    requires { (Ready doc.now held.old × Spotted held.old) × (code_among (kw_a ∷ term_kinds) (kind_in held.old.st) ≡ true) }
    ensures { PutsTerm doc.now held.old held.new (code result) }
{
    place_term(
        doc,
        held.work,
        held.rows,
        held.terms,
        held.store,
        &mut held.st,
    )?;
    nodes::pass(doc, &mut held.st);
    Ok(())
}

// A bracket opens: its node is at its place.
pub fn put_bracket(doc: &[u8], held: &mut Held<'_>) -> Result<(), Refusal>
    requires { (Ready doc.now held.old × Spotted held.old) × (kind_in held.old.st ≡ kind_code open_bracket) }
    ensures { Numbers doc.now (placed (spot_of held.old) (new_term (blank (bracket (at_in held.old.st))))) held.old held.new (code result) }
{
    if Limits::DEPTH <= held.st[Words::DEPTH] {
        return Err(Refusal::Depth);
    }
    place_bracket(held.work, held.rows, held.terms, held.store, &mut held.st)?;
    deepen(doc, &mut held.st);
    Ok(())
}

// A list opens: its place is known.
pub fn put_paren(doc: &[u8], held: &mut Held<'_>) -> Result<(), Refusal>
    requires { (Ready doc.now held.old × Spotted held.old) × (kind_in held.old.st ≡ kind_code open_paren) }
    ensures { Does doc.now (opened_at (spot_of held.old)) held.old held.new (code result) }
{
    if Limits::DEPTH <= held.st[Words::DEPTH] {
        return Err(Refusal::Depth);
    }
    let spot = spot_here(&held.st);
    placing::open(
        held.work,
        held.rows,
        held.terms,
        held.store,
        &mut held.st,
        spot,
    )?;
    deepen(doc, &mut held.st);
    Ok(())
}

// A list closes.
pub fn close_list(doc: &[u8], held: &mut Held<'_>) -> Result<(), Refusal>
    requires { (Ready doc.now held.old × Spotted held.old) × ((kind_in held.old.st ≡ kind_code close_paren) × (0 < depth_in held.old.st)) }
    ensures { Closes doc.now held.old held.new (code result) }
{
    let spot = spot_here(&held.st);
    placing::close(
        held.work,
        held.rows,
        held.terms,
        held.store,
        &mut held.st,
        spot,
    )?;
    nodes::leave(doc, &mut held.st);
    Ok(())
}
