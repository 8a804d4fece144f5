// What one token writes into the lent tables, once it is known that there is room: the place of its node, the node, and the
// row that holds it.
#![tactic(auto)]

ghost use Rattle.std.specs.Prelude.{◌≡◌, true, false, List, ℕ, ◌+◌, ◌-◌, ◌<◌, length, get_or, take, drop};
ghost use Rattle.text.specs.Text.{cond};
ghost use Rattle.environment.specs.Code.{words_size, Usable};
ghost use Rattle.spelling.specs.Form.{undo, bad, joined};
ghost use Rattle.dataset.specs.Terms.{iri, blank, label, tagged};
ghost use Rattle.limits.specs.Limits.{work_size};
ghost use Rattle.terms.specs.Keeps.{TermFits};
ghost use Rattle.term_tree.specs.Tree.{InSlots};
ghost use Rattle.machine.specs.Memory.{done, term, typed};
ghost use Rattle.machine.specs.Frame.{no_cell, cells};
ghost use Rattle.machine.specs.Rules.{hold, new_cell, end_list};
ghost use Rattle.state.specs.Supplies.{supplied};
ghost use Rattle.state.specs.Words.{terms_word, kept_size, counts_of, Stays};
ghost use Rattle.state.specs.Represents.{lent_tables, Wrote};
ghost use Rattle.state.specs.Writes.{place_of, cells_of, node_write, placed, opened_at, closed, SpotFits, NodeFits};
ghost use Rattle.writes.specs.Ready.{Ready, Writes, put_at};
ghost use Rattle.writes.specs.Steps.{CountsSet, Number, Part, ShareReady, Shares, TermAdded, TermReady, TermWrites, FreshReady, FreshWrites, RowReady, RowWrites, NumberWrites, HoldReady, PutReady, Below};

use environment::Layout;
use limits::Limits;
use spelling::Form;
use state::{Node, Spot, Supplied, Words};
use terms::{Counts, Sort, Sought};
use text::wide;

fn set_counts(st: &mut [usize; Layout::WORDS], c: Counts)
    requires { length st.old ≡ words_size }
    ensures { CountsSet st.old st.new c }
{
    st[Words::TERMS] = c.terms;
    st[Words::USED] = c.used;
    st[Words::BLANKS] = c.blanks;
}

// Adds a term and puts it into its slot of the index; its number.
fn add(
    work: &mut [u8],
    terms: &mut [u32],
    store: &mut [u8],
    st: &mut [usize; Layout::WORDS],
    slot: usize,
    sort: Sort,
    start: usize,
    end: usize,
    form: Form,
    back: &[u8],
    tag: &[u8],
) -> usize
    requires { TermFits terms.old store.old (counts_of st.old) sort (joined (take (end - start) (drop start work.old)) form back.now) tag.now × ((Part start end form back.now × Usable work.old st.old) × InSlots (drop work_size work.old) slot) }
    ensures { (result ≡ get_or st.old terms_word 0 + 1) × TermAdded sort (joined (take (end - start) (drop start work.old)) form back.now) tag.now slot work.old work.new terms.old terms.new store.old store.new st.old st.new }
{
    let c = state::counts(st);
    let sought = Sought {
        sort: sort,
        front: &work[start..end],
        form: form,
        back: back,
        tag: tag,
    };
    let d = terms::add(terms, store, c, &sought);
    term_tree::enter(work, c.terms, slot);
    set_counts(st, d);
    c.terms + 1
}

// The number of a term; it is added where there is none equal to it. Its text is a part of the work slice before a back.
fn share(
    work: &mut [u8],
    terms: &mut [u32],
    store: &mut [u8],
    st: &mut [usize; Layout::WORDS],
    sort: Sort,
    start: usize,
    end: usize,
    form: Form,
    back: &[u8],
    tag: &[u8],
) -> usize
    requires { ShareReady sort (joined (take (end - start) (drop start work.old)) form back.now) tag.now work.old terms.old store.old st.old × Part start end form back.now }
    ensures { Number result × ((rows : List ℕ) → Shares sort (joined (take (end - start) (drop start work.old)) form back.now) tag.now result work.old work.new (lent_tables rows terms.old store.old) (lent_tables rows terms.new store.new) st.old st.new) }
{
    let sought = Sought {
        sort: sort,
        front: &work[start..end],
        form: form,
        back: back,
        tag: tag,
    };
    match term_tree::find(
        &work[Limits::WORK..],
        terms,
        store,
        state::counts(st),
        &sought,
    ) {
        Ok(number) => number,
        Err(slot) => add(
            work, terms, store, st, slot, sort, start, end, form, back, tag,
        ),
    }
}

// Which of the kept numbers may be that of an IRI. Each would do: these bytes tell most names of a document apart.
fn kept_at(start: usize, back: &[u8]) -> usize
    ensures { result < kept_size }
{
    let n = back.len();
    if n == 0 {
        return 0;
    }
    (start / 64 % 32 + 5 * (n % 32) + 3 * wide(back[n - 1]) + wide(back[n / 2])) % Words::KEPT_SIZE
}

// The number of an IRI. Where it was asked for before, its number is mostly kept.
fn share_iri(
    work: &mut [u8],
    terms: &mut [u32],
    store: &mut [u8],
    st: &mut [usize; Layout::WORDS],
    start: usize,
    end: usize,
    form: Form,
    back: &[u8],
) -> usize
    requires { TermReady (term (iri (joined (take (end - start) (drop start work.old)) form back.now))) work.old terms.old store.old st.old × Part start end form back.now }
    ensures { TermWrites (term (iri (joined (take (end - start) (drop start work.old)) form back.now))) result work.old work.new terms.old terms.new store.old store.new st.old st.new }
{
    let word = Words::KEPT + kept_at(start, back);
    let kept = st[word];
    let count = st[Words::TERMS];
    if term_tree::is_number(kept, terms, store, count, &work[start..end], form, back) {
        return kept;
    }
    let number = share(
        work,
        terms,
        store,
        st,
        Sort::Iri,
        start,
        end,
        form,
        back,
        b"",
    );
    st[word] = number;
    number
}

// The number of the blank node with a label.
fn share_label(
    work: &mut [u8],
    terms: &mut [u32],
    store: &mut [u8],
    st: &mut [usize; Layout::WORDS],
    text: &[u8],
) -> usize
    requires { TermReady (term (blank (label text.now))) work.old terms.old store.old st.old × (0 < length text.now) }
    ensures { TermWrites (term (blank (label text.now))) result work.old work.new terms.old terms.new store.old store.new st.old st.new }
{
    let sort = Sort::Blank;
    share(work, terms, store, st, sort, 0, 0, Form::Plain, text, b"")
}

// The number of a literal with a language tag.
fn share_tagged(
    work: &mut [u8],
    terms: &mut [u32],
    store: &mut [u8],
    st: &mut [usize; Layout::WORDS],
    form: Form,
    text: &[u8],
    tag: &[u8],
) -> usize
    requires { TermReady (term (tagged (undo form text.now) tag.now)) work.old terms.old store.old st.old × (bad form text.now ≡ false) }
    ensures { TermWrites (term (tagged (undo form text.now) tag.now)) result work.old work.new terms.old terms.new store.old store.new st.old st.new }
{
    let sort = Sort::Tagged;
    share(work, terms, store, st, sort, 0, 0, form, text, tag)
}

// The number of a literal; its datatype is numbered before it.
fn share_typed(
    work: &mut [u8],
    terms: &mut [u32],
    store: &mut [u8],
    st: &mut [usize; Layout::WORDS],
    start: usize,
    end: usize,
    form: Form,
    back: &[u8],
    shape: Form,
    text: &[u8],
) -> usize
    requires { TermReady (typed (undo shape text.now) (joined (take (end - start) (drop start work.old)) form back.now)) work.old terms.old store.old st.old × (Part start end form back.now × (bad shape text.now ≡ false)) }
    ensures { TermWrites (typed (undo shape text.now) (joined (take (end - start) (drop start work.old)) form back.now)) result work.old work.new terms.old terms.new store.old store.new st.old st.new }
{
    let d = share_iri(work, terms, store, st, start, end, form, back);
    let sort = Sort::Literal(d);
    share(work, terms, store, st, sort, 0, 0, shape, text, b"")
}

// The number of an IRI that a list supplies.
fn share_supplied(
    work: &mut [u8],
    terms: &mut [u32],
    store: &mut [u8],
    st: &mut [usize; Layout::WORDS],
    which: Supplied,
) -> usize
    requires { TermReady (term (iri (supplied which))) work.old terms.old store.old st.old }
    ensures { TermWrites (term (iri (supplied which))) result work.old work.new terms.old terms.new store.old store.new st.old st.new }
{
    share_iri(work, terms, store, st, 0, 0, Form::Plain, which.text())
}

// The number of a new blank node without a label.
fn fresh(terms: &mut [u32], st: &mut [usize; Layout::WORDS]) -> usize
    requires { FreshReady terms.old st.old }
    ensures { FreshWrites result terms.old terms.new st.old st.new }
{
    let c = state::counts(st);
    let count = c.terms;
    let d = terms::add_blank(terms, c);
    set_counts(st, d);
    count + 1
}

// Adds a row in the graph that is open.
fn put_row(
    rows: &mut [u32],
    st: &mut [usize; Layout::WORDS],
    s: usize,
    p: usize,
    o: usize,
    at: usize,
)
    requires { RowReady s p o at rows.old st.old }
    ensures { RowWrites s p o at rows.old rows.new st.old st.new }
{
    let count = st[Words::ROWS];
    let graph = st[Words::GRAPH];
    let row = [graph, s, p, o, at];
    terms::add_row(rows, count, &row);
    st[Words::ROWS] = count + 1;
}

// The row that holds the node n at the place of x and y, if it has one.
fn hold(
    work: &mut [u8],
    rows: &mut [u32],
    terms: &mut [u32],
    store: &mut [u8],
    st: &mut [usize; Layout::WORDS],
    x: usize,
    y: usize,
    n: usize,
    at: usize,
)
    requires { HoldReady x y n at work.old (lent_tables rows.old terms.old store.old) st.old }
    ensures { Writes (hold (place_of x y) n at) done work.old work.new (lent_tables rows.old terms.old store.old) (lent_tables rows.new terms.new store.new) st.old st.new }
{
    if x == 0 {
        return;
    }
    if y == 0 {
        let first = share_supplied(work, terms, store, st, Supplied::First);
        put_row(rows, st, x, first, n, at);
        return;
    }
    put_row(rows, st, x, y, n, at);
}

// The cell of a list's first element; the row that holds the list.
fn first_cell(
    work: &mut [u8],
    rows: &mut [u32],
    terms: &mut [u32],
    store: &mut [u8],
    st: &mut [usize; Layout::WORDS],
    spot: Spot,
) -> usize
    requires { Ready (new_cell (place_of spot.x spot.y) spot.opened no_cell spot.at) work.old (lent_tables rows.old terms.old store.old) st.old × SpotFits spot }
    ensures { NumberWrites (new_cell (place_of spot.x spot.y) spot.opened no_cell spot.at) result work.old work.new (lent_tables rows.old terms.old store.old) (lent_tables rows.new terms.new store.new) st.old st.new }
{
    let cell = fresh(terms, st);
    hold(
        work,
        rows,
        terms,
        store,
        st,
        spot.x,
        spot.y,
        cell,
        spot.opened,
    );
    cell
}

// The cell of a later element; the row that ties it to the last one.
fn later_cell(
    work: &mut [u8],
    rows: &mut [u32],
    terms: &mut [u32],
    store: &mut [u8],
    st: &mut [usize; Layout::WORDS],
    spot: Spot,
) -> usize
    requires { Ready (new_cell (place_of spot.x spot.y) spot.opened (cells 0 spot.last) spot.at) work.old (lent_tables rows.old terms.old store.old) st.old × SpotFits spot }
    ensures { NumberWrites (new_cell (place_of spot.x spot.y) spot.opened (cells 0 spot.last) spot.at) result work.old work.new (lent_tables rows.old terms.old store.old) (lent_tables rows.new terms.new store.new) st.old st.new }
{
    let cell = fresh(terms, st);
    let rest = share_supplied(work, terms, store, st, Supplied::Rest);
    put_row(rows, st, spot.last, rest, cell, spot.at);
    cell
}

// The cell of an element.
fn new_cell(
    work: &mut [u8],
    rows: &mut [u32],
    terms: &mut [u32],
    store: &mut [u8],
    st: &mut [usize; Layout::WORDS],
    spot: Spot,
) -> usize
    requires { Ready (new_cell (place_of spot.x spot.y) spot.opened (cells_of spot.last) spot.at) work.old (lent_tables rows.old terms.old store.old) st.old × SpotFits spot }
    ensures { NumberWrites (new_cell (place_of spot.x spot.y) spot.opened (cells_of spot.last) spot.at) result work.old work.new (lent_tables rows.old terms.old store.old) (lent_tables rows.new terms.new store.new) st.old st.new }
{
    if spot.last == 0 {
        return first_cell(work, rows, terms, store, st, spot);
    }
    later_cell(work, rows, terms, store, st, spot)
}

// The number of what a node belongs to: of a new cell where it is an element, else of what its place says.
fn holder(
    work: &mut [u8],
    rows: &mut [u32],
    terms: &mut [u32],
    store: &mut [u8],
    st: &mut [usize; Layout::WORDS],
    spot: Spot,
) -> usize
    requires { (spot.list ≡ true → Ready (new_cell (place_of spot.x spot.y) spot.opened (cells_of spot.last) spot.at) work.old (lent_tables rows.old terms.old store.old) st.old) × SpotFits spot }
    ensures { Below spot result work.old work.new (lent_tables rows.old terms.old store.old) (lent_tables rows.new terms.new store.new) st.old st.new }
{
    if spot.list {
        return new_cell(work, rows, terms, store, st, spot);
    }
    spot.x
}

// The predicate; 0 where the node is an element.
fn predicate(spot: Spot) -> usize
    ensures { result ≡ cond spot.list 0 spot.y }
{
    if spot.list {
        return 0;
    }
    spot.y
}

// The number of a node.
fn node(
    work: &mut [u8],
    terms: &mut [u32],
    store: &mut [u8],
    st: &mut [usize; Layout::WORDS],
    node: Node,
    back: &[u8],
    text: &[u8],
    tag: &[u8],
) -> usize
    requires { ((at : ℕ) × TermReady (node_write node work.old back.now text.now tag.now at) work.old terms.old store.old st.old) × NodeFits node work.old back.now text.now tag.now }
    ensures { (at : ℕ) → TermWrites (node_write node work.old back.now text.now tag.now at) result work.old work.new terms.old terms.new store.old store.new st.old st.new }
{
    let kind = node.kind;
    let start = node.start;
    let end = node.end;
    let form = node.form;
    let shape = node.text;
    if kind == Node::IRI {
        return share_iri(work, terms, store, st, start, end, form, back);
    }
    if kind == Node::BLANK {
        return share_label(work, terms, store, st, text);
    }
    if kind == Node::LITERAL {
        return share_typed(work, terms, store, st, start, end, form, back, shape, text);
    }
    if kind == Node::TAGGED {
        return share_tagged(work, terms, store, st, shape, text, tag);
    }
    fresh(terms, st)
}

// A node at the place of x and y; its number.
fn put_node(
    work: &mut [u8],
    rows: &mut [u32],
    terms: &mut [u32],
    store: &mut [u8],
    st: &mut [usize; Layout::WORDS],
    x: usize,
    y: usize,
    at: usize,
    n: Node,
    back: &[u8],
    text: &[u8],
    tag: &[u8],
) -> usize
    requires { PutReady x y at (node_write n work.old back.now text.now tag.now at) work.old (lent_tables rows.old terms.old store.old) st.old × NodeFits n work.old back.now text.now tag.now }
    ensures { NumberWrites (put_at (place_of x y) at (node_write n work.old back.now text.now tag.now at)) result work.old work.new (lent_tables rows.old terms.old store.old) (lent_tables rows.new terms.new store.new) st.old st.new }
{
    let number = node(work, terms, store, st, n, back, text, tag);
    hold(work, rows, terms, store, st, x, y, number, at);
    number
}

// Writes a node at its place.
pub fn write_placed(
    work: &mut [u8],
    rows: &mut [u32],
    terms: &mut [u32],
    store: &mut [u8],
    st: &mut [usize; Layout::WORDS],
    spot: Spot,
    node: Node,
    back: &[u8],
    text: &[u8],
    tag: &[u8],
)
    requires { Ready (placed spot (node_write node work.old back.now text.now tag.now spot.at)) work.old (lent_tables rows.old terms.old store.old) st.old × (SpotFits spot × NodeFits node work.old back.now text.now tag.now) }
    ensures { Wrote (placed spot (node_write node work.old back.now text.now tag.now spot.at)) work.old work.new (lent_tables rows.old terms.old store.old) (lent_tables rows.new terms.new store.new) st.old st.new × (Stays st.old st.new × (length st.new ≡ length st.old)) }
{
    let at = spot.at;
    let x = holder(work, rows, terms, store, st, spot);
    let y = predicate(spot);
    st[Words::NODE] = put_node(
        work, rows, terms, store, st, x, y, at, node, back, text, tag,
    );
}

// Writes the place of a node that is not known yet.
pub fn write_opened(
    work: &mut [u8],
    rows: &mut [u32],
    terms: &mut [u32],
    store: &mut [u8],
    st: &mut [usize; Layout::WORDS],
    spot: Spot,
)
    requires { Ready (opened_at spot) work.old (lent_tables rows.old terms.old store.old) st.old × SpotFits spot }
    ensures { Wrote (opened_at spot) work.old work.new (lent_tables rows.old terms.old store.old) (lent_tables rows.new terms.new store.new) st.old st.new × (Stays st.old st.new × (length st.new ≡ length st.old)) }
{
    if spot.list {
        new_cell(work, rows, terms, store, st, spot);
        st[Words::NODE] = 0;
        return;
    }
    st[Words::NODE] = 0;
}

// Ends a list without elements: it is rdf:nil.
fn end_empty(
    work: &mut [u8],
    rows: &mut [u32],
    terms: &mut [u32],
    store: &mut [u8],
    st: &mut [usize; Layout::WORDS],
    spot: Spot,
) -> usize
    requires { Ready (end_list (place_of spot.x spot.y) spot.opened no_cell spot.at) work.old (lent_tables rows.old terms.old store.old) st.old × SpotFits spot }
    ensures { NumberWrites (end_list (place_of spot.x spot.y) spot.opened no_cell spot.at) result work.old work.new (lent_tables rows.old terms.old store.old) (lent_tables rows.new terms.new store.new) st.old st.new }
{
    let nil = share_supplied(work, terms, store, st, Supplied::Nil);
    hold(
        work,
        rows,
        terms,
        store,
        st,
        spot.x,
        spot.y,
        nil,
        spot.opened,
    );
    nil
}

// Ends a list behind its last cell.
fn end_cells(
    work: &mut [u8],
    rows: &mut [u32],
    terms: &mut [u32],
    store: &mut [u8],
    st: &mut [usize; Layout::WORDS],
    spot: Spot,
)
    requires { Ready (end_list (place_of spot.x spot.y) spot.opened (cells 0 spot.last) spot.at) work.old (lent_tables rows.old terms.old store.old) st.old × SpotFits spot }
    ensures { Writes (end_list (place_of spot.x spot.y) spot.opened (cells 0 spot.last) spot.at) 0 work.old work.new (lent_tables rows.old terms.old store.old) (lent_tables rows.new terms.new store.new) st.old st.new }
{
    let rest = share_supplied(work, terms, store, st, Supplied::Rest);
    let nil = share_supplied(work, terms, store, st, Supplied::Nil);
    put_row(rows, st, spot.last, rest, nil, spot.at);
}

// Writes the end of a list.
pub fn write_closed(
    work: &mut [u8],
    rows: &mut [u32],
    terms: &mut [u32],
    store: &mut [u8],
    st: &mut [usize; Layout::WORDS],
    spot: Spot,
)
    requires { Ready (closed spot) work.old (lent_tables rows.old terms.old store.old) st.old × SpotFits spot }
    ensures { Wrote (closed spot) work.old work.new (lent_tables rows.old terms.old store.old) (lent_tables rows.new terms.new store.new) st.old st.new × (Stays st.old st.new × (length st.new ≡ length st.old)) }
{
    if spot.last == 0 {
        st[Words::NODE] = end_empty(work, rows, terms, store, st, spot);
        return;
    }
    end_cells(work, rows, terms, store, st, spot);
    st[Words::NODE] = 0;
}
