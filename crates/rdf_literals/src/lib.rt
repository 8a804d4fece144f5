// String literals with their tag or datatype. A string is complete at its own token where no tag and no ^^ follows: the
// cursor goes on first, and what the string's token was is kept in numbers.
#![tactic(auto)]

ghost use Rattle.std.specs.Prelude.{◌≡◌, [], ◌∷◌, true, ◌+◌, ◌≤◌, ◌<◌, length, get_or, take, drop};
ghost use Rattle.limits.specs.Limits.{iri_limit};
ghost use Rattle.limits.specs.Refusal.{code};
ghost use Rattle.token.specs.Kind.{kind_code, strings, iris, LANGTAG};
ghost use Rattle.escape.specs.Escape.{unescape, bad_escape};
ghost use Rattle.spelling.specs.Form.{joined};
ghost use Rattle.environment.specs.Code.{words_size};
ghost use Rattle.dataset.specs.Terms.{tagged, xsd_string};
ghost use Rattle.dataset.specs.Constructors.{inner, tag};
ghost use Rattle.machine.specs.Memory.{term, typed, typed_by};
ghost use Rattle.machine.specs.Frame.{suffix, datatype};
ghost use Rattle.state.specs.Words.{terms_word, kind_in, at_in, len_in};
ghost use Rattle.state.specs.Cursor.{token_of, Cursor, TokenHere};
ghost use Rattle.state.specs.Represents.{lent_tables, Represented, Puts};
ghost use Rattle.state.specs.Writes.{place_of, placed, opened_at, SpotFits};
ghost use Rattle.token_iri.specs.Addresses.{front_of, back_of, parts_of};
ghost use Rattle.simulation.specs.Simulation.{code_among, here, Ready, Reads, Does, tables_of};
ghost use Rattle.nodes.specs.Nodes.{Spotted, Fills, Settled};
ghost use Rattle.rdf_literals.specs.Literals.{ties, quotes_of, text_of, Quoted, Located, spot_at, own_x, own_y, own_spot, Adds, Obeys};
ghost use Rattle.table.specs.Layout.{word_limit};

use environment::Layout;
use limits::{Limits, Refusal};
use spelling::Form;
use state::{Held, Node, Spot, Words};
use token::Kind;
use token_iri::Address;

// How many quotes stand on each side of a string of this kind.
fn quotes_of(kind: usize) -> usize
    ensures { result ≡ quotes_of kind }
{
    match kind {
        Kind::STRING_LITERAL_LONG_QUOTE => 3,
        Kind::STRING_LITERAL_LONG_SINGLE_QUOTE => 3,
        _ => 1,
    }
}

// Whether a token of this kind is a tag, or ^^.
fn is_tie(kind: usize) -> bool
    ensures { result ≡ code_among ties kind }
{
    (kind == Kind::LANGTAG) | (kind == Kind::CARETS)
}

// Whether a token of this kind stands for an IRI.
fn is_iri(kind: usize) -> bool
    ensures { result ≡ code_among iris kind }
{
    (kind == Kind::IRIREF) | (kind == Kind::PNAME_NS) | (kind == Kind::PNAME_LN)
}

// What stands between the quotes.
fn inside<'a>(token: &'a [u8], quotes: usize) -> &'a [u8]
    requires { quotes ≤ 3 }
    ensures { result.now ≡ inner quotes token.now }
{
    if token.len() < quotes + quotes {
        return &token[0..0];
    }
    let end = token.len() - quotes;
    &token[quotes..end]
}

// Where the array says that the next node belongs.
fn spot_at(st: &[usize; Layout::WORDS], at: usize) -> Spot
    requires { length st.now ≡ words_size }
    ensures { result ≡ spot_at st.now at }
{
    Spot {
        list: st[Words::LIST] != 0,
        x: st[Words::X],
        y: st[Words::Y],
        opened: st[Words::OPENED],
        last: st[Words::LAST],
        at: at,
    }
}

// The place that the next node gets.
fn own_x(st: &[usize; Layout::WORDS]) -> usize
    requires { (length st.now ≡ words_size) × (get_or st.now terms_word 0 + 1 < word_limit) }
    ensures { result ≡ own_x st.now }
{
    if st[Words::LIST] == 0 {
        return st[Words::X];
    }
    st[Words::TERMS] + 1
}

fn own_y(st: &[usize; Layout::WORDS]) -> usize
    requires { length st.now ≡ words_size }
    ensures { result ≡ own_y st.now }
{
    if st[Words::LIST] == 0 {
        return st[Words::Y];
    }
    0
}

// A string with no tag and no datatype.
fn place_plain(
    doc: &[u8],
    work: &mut [u8],
    rows: &mut [u32],
    terms: &mut [u32],
    store: &mut [u8],
    st: &mut [usize; Layout::WORDS],
    at: usize,
    len: usize,
    quotes: usize,
) -> Result<(), Refusal>
    requires { Represented work.old (lent_tables rows.old terms.old store.old) st.old × (SpotFits (spot_at st.old at) × Quoted doc.now at len quotes) }
    ensures { Puts (placed (spot_at st.old at) (typed (text_of doc.now at len quotes) xsd_string)) work.old work.new (lent_tables rows.old terms.old store.old) (lent_tables rows.new terms.new store.new) st.old st.new (code result) }
{
    let end = at + len;
    let text = inside(&doc[at..end], quotes);
    let spot = spot_at(st, at);
    let node = Node {
        kind: Node::LITERAL,
        start: 0,
        end: 0,
        form: Form::Plain,
        text: Form::Escaped,
    };
    placing::place(
        work,
        rows,
        terms,
        store,
        st,
        spot,
        node,
        b"http://www.w3.org/2001/XMLSchema#string",
        text,
        &doc[0..0],
    )
}

// A string with the tag at the cursor.
fn place_tagged(
    doc: &[u8],
    work: &mut [u8],
    rows: &mut [u32],
    terms: &mut [u32],
    store: &mut [u8],
    st: &mut [usize; Layout::WORDS],
    at: usize,
    len: usize,
    quotes: usize,
    x: usize,
    y: usize,
) -> Result<(), Refusal>
    requires { (Represented work.old (lent_tables rows.old terms.old store.old) st.old × (SpotFits (own_spot x y at) × Quoted doc.now at len quotes)) × ((Cursor doc.now st.old × TokenHere doc.now st.old) × (kind_in st.old ≡ kind_code LANGTAG)) }
    ensures { Obeys doc.now (placed (own_spot x y at) (term (tagged (text_of doc.now at len quotes) (tag (token_of doc.now (kind_in st.old) (at_in st.old) (len_in st.old)))))) work.old work.new (lent_tables rows.old terms.old store.old) (lent_tables rows.new terms.new store.new) st.old st.new (code result) }
{
    let end = at + len;
    let text = inside(&doc[at..end], quotes);
    let from = st[Words::AT] + 1;
    let to = st[Words::AT] + st[Words::LEN];
    let spot = Spot {
        list: false,
        x: x,
        y: y,
        opened: 0,
        last: 0,
        at: at,
    };
    let node = Node {
        kind: Node::TAGGED,
        start: 0,
        end: 0,
        form: Form::Plain,
        text: Form::Escaped,
    };
    placing::place(
        work,
        rows,
        terms,
        store,
        st,
        spot,
        node,
        &doc[0..0],
        text,
        &doc[from..to],
    )
}

// A literal with the datatype that was found.
fn place_address(
    token: &[u8],
    text: &[u8],
    buffer: &[u8],
    work: &mut [u8],
    rows: &mut [u32],
    terms: &mut [u32],
    store: &mut [u8],
    st: &mut [usize; Layout::WORDS],
    spot: Spot,
    a: Address,
) -> Result<(), Refusal>
    requires { Represented work.old (lent_tables rows.old terms.old store.old) st.old × (SpotFits spot × Located (parts_of a) token.now text.now buffer.now work.old) }
    ensures { Puts (placed spot (typed (unescape text.now) (joined (front_of (parts_of a) work.old) a.form (back_of (parts_of a) token.now buffer.now)))) work.old work.new (lent_tables rows.old terms.old store.old) (lent_tables rows.new terms.new store.new) st.old st.new (code result) }
{
    let form = a.form;
    let node = Node {
        kind: Node::LITERAL,
        start: a.start,
        end: a.end,
        form: form,
        text: Form::Escaped,
    };
    let from = a.from;
    let to = a.to;
    if a.buffered {
        return placing::place(
            work,
            rows,
            terms,
            store,
            st,
            spot,
            node,
            &buffer[from..to],
            text,
            &token[0..0],
        );
    }
    placing::place(
        work,
        rows,
        terms,
        store,
        st,
        spot,
        node,
        &token[from..to],
        text,
        &token[0..0],
    )
}

// A string with the datatype at the cursor; the buffer is for its IRI.
fn place_written(
    doc: &[u8],
    work: &mut [u8],
    rows: &mut [u32],
    terms: &mut [u32],
    store: &mut [u8],
    st: &mut [usize; Layout::WORDS],
    at: usize,
    len: usize,
    quotes: usize,
    x: usize,
    y: usize,
    buffer: &mut [u8],
) -> Result<(), Refusal>
    requires { ((Represented work.old (lent_tables rows.old terms.old store.old) st.old × (SpotFits (own_spot x y at) × Quoted doc.now at len quotes)) × ((Cursor doc.now st.old × TokenHere doc.now st.old) × (code_among iris (kind_in st.old) ≡ true))) × (length buffer.old ≡ iri_limit) }
    ensures { Obeys doc.now (placed (own_spot x y at) (typed_by (text_of doc.now at len quotes) (token_of doc.now (kind_in st.old) (at_in st.old) (len_in st.old)))) work.old work.new (lent_tables rows.old terms.old store.old) (lent_tables rows.new terms.new store.new) st.old st.new (code result) }
{
    let from = st[Words::AT];
    let to = from + st[Words::LEN];
    let kind = st[Words::KIND];
    let a = token_iri::address_of(&doc[from..to], kind, &work[0..], st, buffer)?;
    let end = at + len;
    let text = inside(&doc[at..end], quotes);
    let spot = Spot {
        list: false,
        x: x,
        y: y,
        opened: 0,
        last: 0,
        at: at,
    };
    place_address(
        &doc[from..to],
        text,
        &buffer[0..],
        work,
        rows,
        terms,
        store,
        st,
        spot,
        a,
    )
}

fn place_typed(
    doc: &[u8],
    work: &mut [u8],
    rows: &mut [u32],
    terms: &mut [u32],
    store: &mut [u8],
    st: &mut [usize; Layout::WORDS],
    at: usize,
    len: usize,
    quotes: usize,
    x: usize,
    y: usize,
) -> Result<(), Refusal>
    requires { (Represented work.old (lent_tables rows.old terms.old store.old) st.old × (SpotFits (own_spot x y at) × Quoted doc.now at len quotes)) × ((Cursor doc.now st.old × TokenHere doc.now st.old) × (code_among iris (kind_in st.old) ≡ true)) }
    ensures { Obeys doc.now (placed (own_spot x y at) (typed_by (text_of doc.now at len quotes) (token_of doc.now (kind_in st.old) (at_in st.old) (len_in st.old)))) work.old work.new (lent_tables rows.old terms.old store.old) (lent_tables rows.new terms.new store.new) st.old st.new (code result) }
{
    let mut buffer = [0u8; Limits::IRI];
    place_written(
        doc,
        work,
        rows,
        terms,
        store,
        st,
        at,
        len,
        quotes,
        x,
        y,
        &mut buffer,
    )
}

// A string that is complete, the cursor behind it. Where it is refused, the cursor is set back.
fn put_plain(
    doc: &[u8],
    held: &mut Held<'_>,
    at: usize,
    len: usize,
    quotes: usize,
) -> Result<(), Refusal>
    requires { Represented held.old.work.now (tables_of held.old) held.old.st × (SpotFits (spot_at held.old.st at) × Quoted doc.now at len quotes) }
    ensures { Adds (placed (spot_at held.old.st at) (typed (text_of doc.now at len quotes) xsd_string)) held.old held.new at (code result) }
{
    if let Err(refusal) = place_plain(
        doc,
        held.work,
        held.rows,
        held.terms,
        held.store,
        &mut held.st,
        at,
        len,
        quotes,
    ) {
        held.st[Words::AT] = at;
        return Err(refusal);
    }
    Ok(())
}

// The place of a string that is not complete.
fn put_place(held: &mut Held<'_>, at: usize) -> Result<(), Refusal>
    requires { Represented held.old.work.now (tables_of held.old) held.old.st × SpotFits (spot_at held.old.st at) }
    ensures { Adds (opened_at (spot_at held.old.st at)) held.old held.new at (code result) }
{
    let spot = spot_at(&held.st, at);
    if let Err(refusal) = placing::open(
        held.work,
        held.rows,
        held.terms,
        held.store,
        &mut held.st,
        spot,
    ) {
        held.st[Words::AT] = at;
        return Err(refusal);
    }
    Ok(())
}

fn put_tagged(
    doc: &[u8],
    held: &mut Held<'_>,
    at: usize,
    len: usize,
    quotes: usize,
    x: usize,
    y: usize,
) -> Result<(), Refusal>
    requires { (Ready doc.now held.old × (SpotFits (own_spot x y at) × Quoted doc.now at len quotes)) × (kind_in held.old.st ≡ kind_code LANGTAG) }
    ensures { Does doc.now (placed (own_spot x y at) (term (tagged (text_of doc.now at len quotes) (tag (here doc.now held.old))))) held.old held.new (code result) }
{
    place_tagged(
        doc,
        held.work,
        held.rows,
        held.terms,
        held.store,
        &mut held.st,
        at,
        len,
        quotes,
        x,
        y,
    )?;
    nodes::pass(doc, &mut held.st);
    Ok(())
}

fn put_typed(
    doc: &[u8],
    held: &mut Held<'_>,
    at: usize,
    len: usize,
    quotes: usize,
    x: usize,
    y: usize,
) -> Result<(), Refusal>
    requires { (Ready doc.now held.old × (SpotFits (own_spot x y at) × Quoted doc.now at len quotes)) × (code_among iris (kind_in held.old.st) ≡ true) }
    ensures { Does doc.now (placed (own_spot x y at) (typed_by (text_of doc.now at len quotes) (here doc.now held.old))) held.old held.new (code result) }
{
    place_typed(
        doc,
        held.work,
        held.rows,
        held.terms,
        held.store,
        &mut held.st,
        at,
        len,
        quotes,
        x,
        y,
    )?;
    nodes::pass(doc, &mut held.st);
    Ok(())
}

// The datatype behind ^^.
fn put_datatype(
    doc: &[u8],
    held: &mut Held<'_>,
    at: usize,
    len: usize,
    quotes: usize,
    x: usize,
    y: usize,
) -> Result<(), Refusal>
    requires { Ready doc.now held.old × (SpotFits (own_spot x y at) × Quoted doc.now at len quotes) }
    ensures { Reads doc.now (datatype (place_of x y) at (text_of doc.now at len quotes) ∷ []) [] held.old held.new (code result) × Settled held.old held.new (code result) }
{
    if is_iri(held.st[Words::KIND]) {
        return put_typed(doc, held, at, len, quotes, x, y);
    }
    Err(simulation::unexpected(doc, &held.st))
}

// The tag, or ^^ and the datatype.
fn put_suffix(
    doc: &[u8],
    held: &mut Held<'_>,
    at: usize,
    len: usize,
    quotes: usize,
    x: usize,
    y: usize,
) -> Result<(), Refusal>
    requires { (Ready doc.now held.old × (SpotFits (own_spot x y at) × Quoted doc.now at len quotes)) × (code_among ties (kind_in held.old.st) ≡ true) }
    ensures { Reads doc.now (suffix (place_of x y) at (text_of doc.now at len quotes) ∷ []) [] held.old held.new (code result) × Settled held.old held.new (code result) }
{
    if held.st[Words::KIND] == Kind::LANGTAG {
        return put_tagged(doc, held, at, len, quotes, x, y);
    }
    nodes::pass(doc, &mut held.st);
    put_datatype(doc, held, at, len, quotes, x, y)
}

// Whether an escape of the string at the cursor names no character.
fn is_bad(doc: &[u8], st: &[usize; Layout::WORDS]) -> bool
    requires { Cursor doc.now st.now × (length st.now ≡ words_size) }
    ensures { result ≡ bad_escape (take (len_in st.now) (drop (at_in st.now) doc.now)) }
{
    let at = st[Words::AT];
    let end = at + st[Words::LEN];
    escape::has_bad_escape(&doc[at..end])
}

// The string at the cursor, with its tag or datatype.
pub fn put_string(doc: &[u8], held: &mut Held<'_>) -> Result<(), Refusal>
    requires { (Ready doc.now held.old × Spotted held.old) × (code_among strings (kind_in held.old.st) ≡ true) }
    ensures { Fills doc.now held.old held.new (code result) × Settled held.old held.new (code result) }
{
    if is_bad(doc, &held.st) {
        return Err(Refusal::Escape);
    }
    let at = held.st[Words::AT];
    let len = held.st[Words::LEN];
    let quotes = quotes_of(held.st[Words::KIND]);
    nodes::pass(doc, &mut held.st);
    if !is_tie(held.st[Words::KIND]) {
        return put_plain(doc, held, at, len, quotes);
    }
    let x = own_x(&held.st);
    let y = own_y(&held.st);
    put_place(held, at)?;
    put_suffix(doc, held, at, len, quotes, x, y)
}
