// Whether the lent tables have room for all that one token writes, decided before anything is written: an error says what
// is missing. Nothing is changed. Terms are looked for only where a safe bound of what is new does not fit.
#![tactic(auto)]

ghost use Rattle.std.specs.Prelude.{◌≡◌, ◌+◌, ◌-◌, ◌≤◌, ◌<◌, length, take, drop, unwrap_or, IfSome};
ghost use Rattle.text.specs.Text.{same_text};
ghost use Rattle.limits.specs.Limits.{document_limit, work_size};
ghost use Rattle.limits.specs.Refusal.{code};
ghost use Rattle.spelling.specs.Form.{undo, joined};
ghost use Rattle.dataset.specs.Terms.{iri, blank, label, literal, tagged};
ghost use Rattle.term_tree.specs.Holds.{Finds};
ghost use Rattle.state.specs.Represents.{counted as at_most, lent_tables, room_in, Represented};
ghost use Rattle.state.specs.Writes.{place_of, node_iri, node_write, placed, opened_at, closed, NodeFits};
ghost use Rattle.room.specs.Supply.{number_of};
ghost use Rattle.room.specs.Asks.{supplied, place_iri, place_rows, before_iri, before_rows, behind_iri, behind_rows, close_rows};
ghost use Rattle.room.specs.Counting.{tally, more, count_term, count_supply, is_supplied, count_iri, count_node, asks_first, count_behind, count_before, count_place, count_close, Held, Numbers, Tallies, LiteralTallies, Answers, Small, Named, rows_in, tally_in, refusal_of};

use environment::Layout;
use limits::{Limits, Refusal};
use spelling::Form;
use state::{Node, Spot, Supplied, Words};
use terms::{Counts, Sort, Sought};

// How many terms there would be, and how many bytes of the store they would use.
#[derive(Clone, Copy)]
struct Tally {
    terms: usize,
    bytes: usize,
}

impl Tally {
    // With one term more of so many bytes, where it has no number yet.
    fn more(self, number: Option<usize>, size: usize) -> Tally
        requires { Small self 9000000000 × ((size ≤ 2097152) × IfSome number (λ n. 0 < n)) }
        ensures { result ≡ more self (unwrap_or number 0) size }
    {
        match number {
            None => Tally {
                terms: self.terms + 1,
                bytes: self.bytes + size,
            },
            Some(_) => self,
        }
    }

    // With so many terms and bytes more.
    fn raised(self, terms: usize, bytes: usize) -> Tally
        requires { Small self 4294967294 × ((terms ≤ 5) × (bytes ≤ 4194304)) }
        ensures { result ≡ tally (self.terms + terms) (self.bytes + bytes) }
    {
        Tally {
            terms: self.terms + terms,
            bytes: self.bytes + bytes,
        }
    }
}

// ---- Looking for terms

// The number of an IRI: its front is a part of the work slice.
fn find_iri(
    work: &[u8],
    terms: &[u32],
    store: &[u8],
    counts: Counts,
    start: usize,
    end: usize,
    form: Form,
    back: &[u8],
) -> Option<usize>
    requires { Held work.now terms.now store.now counts × ((start ≤ end) × (end ≤ length work.now)) }
    ensures { Numbers work.now terms.now store.now counts (iri (joined (take (end - start) (drop start work.now)) form back.now)) (unwrap_or result 0) × IfSome result (λ n. 0 < n) }
{
    term_tree::find_name(work, start, end, terms, store, counts, form, back)
}

// Whether the node's IRI is this one.
fn is_named(work: &[u8], node: Node, back: &[u8], which: Supplied) -> bool
    requires { Named node work.now back.now }
    ensures { result ≡ same_text (node_iri node work.now back.now) (supplied (number_of (Some which))) }
{
    spelling::same_joined(&work[node.start..node.end], node.form, back, which.text())
}

// Whether it is the one that was supplied before it, which is never rdf:nil.
fn is_supplied(p: Option<Supplied>, work: &[u8], node: Node, back: &[u8]) -> bool
    requires { Named node work.now back.now }
    ensures { result ≡ is_supplied (number_of p) (node_iri node work.now back.now) }
{
    match p {
        None => false,
        Some(which) => match which {
            Supplied::Nil => false,
            _ => is_named(work, node, back, which),
        },
    }
}

// The number of a label or literal.
fn find_text(
    work: &[u8],
    terms: &[u32],
    store: &[u8],
    counts: Counts,
    sort: Sort,
    form: Form,
    text: &[u8],
    tag: &[u8],
) -> Option<usize>
    requires { Held work.now terms.now store.now counts }
    ensures { Finds terms.now store.now (drop work_size work.now) counts sort (undo form text.now) tag.now (unwrap_or result 0) × IfSome result (λ n. 0 < n) }
{
    let sought = Sought {
        sort: sort,
        front: b"",
        form: form,
        back: text,
        tag: tag,
    };
    term_tree::find(&work[Limits::WORK..], terms, store, counts, &sought).ok()
}

// ---- Counting what is new

// With an IRI that lists supply.
fn tally_supply(
    work: &[u8],
    terms: &[u32],
    store: &[u8],
    counts: Counts,
    p: Option<Supplied>,
    t: Tally,
) -> Tally
    requires { Held work.now terms.now store.now counts × Small t 8000000000 }
    ensures { Tallies work.now terms.now store.now counts (λ ts. count_supply ts (number_of p) t) result }
{
    match p {
        None => t,
        Some(which) => {
            let text = which.text();
            let n = find_iri(work, terms, store, counts, 0, 0, Form::Plain, text);
            t.more(n, text.len())
        }
    }
}

// With the node's IRI, behind p.
fn tally_iri(
    work: &[u8],
    terms: &[u32],
    store: &[u8],
    counts: Counts,
    p: Option<Supplied>,
    node: Node,
    back: &[u8],
    t: Tally,
) -> Tally
    requires { Held work.now terms.now store.now counts × (Named node work.now back.now × Small t 8000000000) }
    ensures { Tallies work.now terms.now store.now counts (λ ts. count_iri ts (number_of p) (node_iri node work.now back.now) t) result }
{
    if is_supplied(p, work, node, back) {
        return t;
    }
    let start = node.start;
    let end = node.end;
    let form = node.form;
    let n = find_iri(work, terms, store, counts, start, end, form, back);
    t.more(n, end - start + spelling::undone_length(form, back))
}

fn tally_label(
    work: &[u8],
    terms: &[u32],
    store: &[u8],
    counts: Counts,
    text: &[u8],
    t: Tally,
) -> Tally
    requires { Held work.now terms.now store.now counts × (((0 < length text.now) × (length text.now ≤ document_limit)) × Small t 8000000000) }
    ensures { Tallies work.now terms.now store.now counts (λ ts. count_term ts (blank (label text.now)) t) result }
{
    let sort = Sort::Blank;
    let n = find_text(work, terms, store, counts, sort, Form::Plain, text, b"");
    t.more(n, text.len())
}

fn tally_tagged(
    work: &[u8],
    terms: &[u32],
    store: &[u8],
    counts: Counts,
    form: Form,
    text: &[u8],
    tag: &[u8],
    t: Tally,
) -> Tally
    requires { Held work.now terms.now store.now counts × (((length (undo form text.now) ≤ document_limit) × (length tag.now ≤ document_limit)) × Small t 8000000000) }
    ensures { Tallies work.now terms.now store.now counts (λ ts. count_term ts (tagged (undo form text.now) tag.now) t) result }
{
    let sort = Sort::Tagged;
    let n = find_text(work, terms, store, counts, sort, form, text, tag);
    t.more(n, spelling::undone_length(form, text) + tag.len())
}

// With a literal of the datatype d, which is behind its IRI.
fn tally_literal(
    work: &[u8],
    terms: &[u32],
    store: &[u8],
    counts: Counts,
    d: usize,
    form: Form,
    text: &[u8],
    t: Tally,
) -> Tally
    requires { Held work.now terms.now store.now counts × ((length (undo form text.now) ≤ document_limit) × Small t 9000000000) }
    ensures { LiteralTallies work.now terms.now store.now counts d (undo form text.now) t result }
{
    let sort = Sort::Literal(d);
    let n = find_text(work, terms, store, counts, sort, form, text, b"");
    t.more(n, spelling::undone_length(form, text))
}

fn tally_typed(
    work: &[u8],
    terms: &[u32],
    store: &[u8],
    counts: Counts,
    p: Option<Supplied>,
    node: Node,
    back: &[u8],
    text: &[u8],
    t: Tally,
) -> Tally
    requires { Held work.now terms.now store.now counts × ((Named node work.now back.now × (length (undo node.text text.now) ≤ document_limit)) × Small t 8000000000) }
    ensures { Tallies work.now terms.now store.now counts (λ ts. count_term ts (literal (undo node.text text.now) (node_iri node work.now back.now)) (count_iri ts (number_of p) (node_iri node work.now back.now) t)) result }
{
    let start = node.start;
    let end = node.end;
    let form = node.form;
    let written = node.text;
    let d = find_iri(work, terms, store, counts, start, end, form, back).unwrap_or(0);
    let i = tally_iri(work, terms, store, counts, p, node, back, t);
    tally_literal(work, terms, store, counts, d, written, text, i)
}

// With the node, behind p.
fn tally_node(
    work: &[u8],
    terms: &[u32],
    store: &[u8],
    counts: Counts,
    p: Option<Supplied>,
    node: Node,
    back: &[u8],
    text: &[u8],
    tag: &[u8],
    t: Tally,
) -> Tally
    requires { Held work.now terms.now store.now counts × (NodeFits node work.now back.now text.now tag.now × Small t 8000000000) }
    ensures { Tallies work.now terms.now store.now counts (λ ts. count_node ts (number_of p) node work.now back.now text.now tag.now t) result }
{
    let kind = node.kind;
    let written = node.text;
    if kind == Node::IRI {
        return tally_iri(work, terms, store, counts, p, node, back, t);
    }
    if kind == Node::BLANK {
        return tally_label(work, terms, store, counts, text, t);
    }
    if kind == Node::LITERAL {
        return tally_typed(work, terms, store, counts, p, node, back, text, t);
    }
    if kind == Node::TAGGED {
        return tally_tagged(work, terms, store, counts, written, text, tag, t);
    }
    t.more(None, 0)
}

// Whether the node asks for rdf:first itself.
fn asks_first(work: &[u8], node: Node, back: &[u8]) -> bool
    requires { Named node work.now back.now }
    ensures { result ≡ asks_first node work.now back.now }
{
    let kind = node.kind;
    if kind == Node::IRI {
        return is_named(work, node, back, Supplied::First);
    }
    if kind == Node::LITERAL {
        return is_named(work, node, back, Supplied::First);
    }
    false
}

// With the IRI q of the node's row, behind p and the node.
fn tally_behind(
    work: &[u8],
    terms: &[u32],
    store: &[u8],
    counts: Counts,
    p: Option<Supplied>,
    q: Option<Supplied>,
    node: Node,
    back: &[u8],
    t: Tally,
) -> Tally
    requires { Held work.now terms.now store.now counts × (Named node work.now back.now × Small t 8000000000) }
    ensures { Tallies work.now terms.now store.now counts (λ ts. count_behind ts (number_of p) (number_of q) node work.now back.now t) result }
{
    if q.is_none() {
        return t;
    }
    if p == Some(Supplied::First) {
        return t;
    }
    if asks_first(work, node, back) {
        return t;
    }
    tally_supply(work, terms, store, counts, Some(Supplied::First), t)
}

// ---- Places

// The IRI that is supplied where a node is held at its place, and the rows that this makes.
fn place_iri(x: usize, y: usize) -> Option<Supplied>
    ensures { number_of result ≡ place_iri (place_of x y) }
{
    if x != 0 && y == 0 {
        return Some(Supplied::First);
    }
    None
}

fn place_rows(x: usize, y: usize) -> usize
    ensures { result ≡ place_rows (place_of x y) }
{
    if x == 0 {
        return 0;
    }
    1
}

// The same for a list's new cell. The end of a list makes as many rows as a new cell would.
fn before_iri(spot: Spot) -> Option<Supplied>
    ensures { number_of result ≡ before_iri spot }
{
    if spot.list {
        if spot.last == 0 {
            return place_iri(spot.x, spot.y);
        }
        return Some(Supplied::Rest);
    }
    None
}

fn close_rows(spot: Spot) -> usize
    ensures { result ≡ close_rows spot }
{
    if spot.last == 0 {
        return place_rows(spot.x, spot.y);
    }
    1
}

fn before_rows(spot: Spot) -> usize
    ensures { result ≡ before_rows spot }
{
    if spot.list {
        return close_rows(spot);
    }
    0
}

// The same for the node itself.
fn behind_iri(spot: Spot) -> Option<Supplied>
    ensures { number_of result ≡ behind_iri spot }
{
    if spot.list {
        return Some(Supplied::First);
    }
    place_iri(spot.x, spot.y)
}

fn behind_rows(spot: Spot) -> usize
    ensures { result ≡ behind_rows spot }
{
    if spot.list {
        return 1;
    }
    place_rows(spot.x, spot.y)
}

// ---- A whole token

// With all that stands before the node: the cell, and the IRI of its row.
fn tally_before(
    work: &[u8],
    terms: &[u32],
    store: &[u8],
    counts: Counts,
    spot: Spot,
    t: Tally,
) -> Tally
    requires { Held work.now terms.now store.now counts × Small t 4294967294 }
    ensures { Tallies work.now terms.now store.now counts (λ ts. count_before ts spot t) result }
{
    if spot.list {
        let c = t.more(None, 0);
        return tally_supply(work, terms, store, counts, before_iri(spot), c);
    }
    t
}

fn tally_place(
    work: &[u8],
    terms: &[u32],
    store: &[u8],
    counts: Counts,
    spot: Spot,
    node: Node,
    back: &[u8],
    text: &[u8],
    tag: &[u8],
    t: Tally,
) -> Tally
    requires { Held work.now terms.now store.now counts × (NodeFits node work.now back.now text.now tag.now × Small t 4294967294) }
    ensures { Tallies work.now terms.now store.now counts (λ ts. count_place ts spot node work.now back.now text.now tag.now t) result }
{
    let p = before_iri(spot);
    let b = tally_before(work, terms, store, counts, spot, t);
    let n = tally_node(work, terms, store, counts, p, node, back, text, tag, b);
    tally_behind(
        work,
        terms,
        store,
        counts,
        p,
        behind_iri(spot),
        node,
        back,
        n,
    )
}

fn tally_close(
    work: &[u8],
    terms: &[u32],
    store: &[u8],
    counts: Counts,
    spot: Spot,
    t: Tally,
) -> Tally
    requires { Held work.now terms.now store.now counts × Small t 4294967294 }
    ensures { Tallies work.now terms.now store.now counts (λ ts. count_close ts spot t) result }
{
    if spot.last == 0 {
        let nil = tally_supply(work, terms, store, counts, Some(Supplied::Nil), t);
        return tally_supply(work, terms, store, counts, place_iri(spot.x, spot.y), nil);
    }
    let rest = tally_supply(work, terms, store, counts, Some(Supplied::Rest), t);
    tally_supply(work, terms, store, counts, Some(Supplied::Nil), rest)
}

// ---- Room

// As many as 32 bits can count.
fn at_most(n: usize) -> usize
    ensures { result ≡ at_most n }
{
    n.min(4294967294)
}

// Which room is missing where there would be so many rows, and so many terms and bytes.
fn room_for(
    rows: &[u32],
    terms: &[u32],
    store: &[u8],
    count: usize,
    t: Tally,
) -> Result<(), Refusal>
    ensures { code result ≡ refusal_of (room_in (lent_tables rows.now terms.now store.now)) count t }
{
    if at_most(rows.len() / table::Layout::ROW_WORDS) < count {
        return Err(Refusal::Rows);
    }
    if at_most(terms.len() / table::Layout::TERM_WORDS) < t.terms {
        return Err(Refusal::Terms);
    }
    if at_most(store.len()) < t.bytes {
        return Err(Refusal::Store);
    }
    Ok(())
}

fn rows_in(st: &[usize; Layout::WORDS]) -> usize
    ensures { result ≡ rows_in st.now }
{
    st[Words::ROWS]
}

fn tally_in(st: &[usize; Layout::WORDS]) -> Tally
    ensures { result ≡ tally_in st.now }
{
    Tally {
        terms: st[Words::TERMS],
        bytes: st[Words::USED],
    }
}

// Whether a node can be written at its place.
pub fn room_to_place(
    work: &[u8],
    rows: &[u32],
    terms: &[u32],
    store: &[u8],
    st: &[usize; Layout::WORDS],
    spot: Spot,
    node: Node,
    back: &[u8],
    text: &[u8],
    tag: &[u8],
) -> Result<(), Refusal>
    requires { Represented work.now (lent_tables rows.now terms.now store.now) st.now × NodeFits node work.now back.now text.now tag.now }
    ensures { Answers work.now (lent_tables rows.now terms.now store.now) st.now (placed spot (node_write node work.now back.now text.now tag.now spot.at)) (code result) }
{
    let count = rows_in(st) + (before_rows(spot) + behind_rows(spot));
    let t = tally_in(st);
    let most = t.raised(5, 1120 + (text.len() + tag.len()));
    if room_for(rows, terms, store, count, most).is_ok() {
        return Ok(());
    }
    let exact = tally_place(
        work,
        terms,
        store,
        state::counts(st),
        spot,
        node,
        back,
        text,
        tag,
        t,
    );
    room_for(rows, terms, store, count, exact)
}

// Whether a place can be made for a bracket or a list.
pub fn room_to_open(
    work: &[u8],
    rows: &[u32],
    terms: &[u32],
    store: &[u8],
    st: &[usize; Layout::WORDS],
    spot: Spot,
) -> Result<(), Refusal>
    requires { Represented work.now (lent_tables rows.now terms.now store.now) st.now }
    ensures { Answers work.now (lent_tables rows.now terms.now store.now) st.now (opened_at spot) (code result) }
{
    let count = rows_in(st) + before_rows(spot);
    let t = tally_in(st);
    let most = t.raised(2, 48);
    if room_for(rows, terms, store, count, most).is_ok() {
        return Ok(());
    }
    let exact = tally_before(work, terms, store, state::counts(st), spot, t);
    room_for(rows, terms, store, count, exact)
}

// Whether a list can be ended.
pub fn room_to_close(
    work: &[u8],
    rows: &[u32],
    terms: &[u32],
    store: &[u8],
    st: &[usize; Layout::WORDS],
    spot: Spot,
) -> Result<(), Refusal>
    requires { Represented work.now (lent_tables rows.now terms.now store.now) st.now }
    ensures { Answers work.now (lent_tables rows.now terms.now store.now) st.now (closed spot) (code result) }
{
    let count = rows_in(st) + close_rows(spot);
    let t = tally_in(st);
    let most = t.raised(2, 96);
    if room_for(rows, terms, store, count, most).is_ok() {
        return Ok(());
    }
    let exact = tally_close(work, terms, store, state::counts(st), spot, t);
    room_for(rows, terms, store, count, exact)
}
