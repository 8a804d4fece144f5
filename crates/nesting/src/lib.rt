// Brackets in lists and lists in brackets. Properties, objects and elements of a subject are read in loops, each node with
// its brackets by readers that call each other. What a token writes is done outside this cycle.
#![tactic(auto)]

ghost use Rattle.std.specs.Prelude.{◌≡◌, ◌∷◌, true, false, ◌||◌, ◌≤◌, ◌<◌, length, get_or};
ghost use Rattle.limits.specs.Limits.{depth_limit};
ghost use Rattle.limits.specs.Refusal.{code};
ghost use Rattle.dataset.specs.Terms.{blank, bracket};
ghost use Rattle.machine.specs.Memory.{new_term};
ghost use Rattle.state.specs.Words.{kind_in, depth_in, node_in, list_in};
ghost use Rattle.environment.specs.Code.{words_size};
ghost use Rattle.state.specs.Cursor.{Cursor};
ghost use Rattle.state.specs.Writes.{placed, opened_at};
ghost use Rattle.simulation.specs.Simulation.{code_among, Ready, Does};
ghost use Rattle.nodes.specs.Nodes.{spot_of, Spotted, Fills, Numbers, PutsTerm, Closes, Steady, term_kinds, verb_kinds};
ghost use Rattle.token.specs.Kind.{kind_code, strings, kw_a, semicolon};
ghost use Rattle.nesting.specs.Nesting.{told, Skips, Leaf, Awaited, Lists, Objects, Properties, Entered, level_x, level_y, Marked, SomeLevels, Deep, Values, Resumes, Contents, Closing, Predicates, Follows, Elements};
ghost use Rattle.table.specs.Layout.{word_limit};

use environment::Layout;
use limits::Refusal;
use state::{Held, Words};
use token::Kind;

// Goes behind the semicolons at the cursor.
fn skip_semicolons(doc: &[u8], st: &mut [usize; Layout::WORDS])
    requires { (Cursor doc.now st.old × (length st.old ≡ words_size)) × (kind_in st.old ≡ kind_code semicolon) }
    ensures { Skips doc.now st.old st.new }
{
    loop {
        nodes::pass(doc, st);
        if st[Words::KIND] != Kind::SEMICOLON {
            return;
        }
    }
}

// A node of its own tokens alone, or a predicate. It is called from more than one place, so that the compiler does not take it,
// with what it holds on the stack, into the recursion.
pub fn leaf(doc: &[u8], held: &mut Held<'_>) -> Result<(), Refusal>
    requires { (Ready doc.now held.old × Spotted held.old) × (code_among strings (kind_in held.old.st) ≡ false → code_among (kw_a ∷ term_kinds) (kind_in held.old.st) ≡ true) }
    ensures { Leaf doc.now held.old held.new (code result) }
{
    if nodes::is_string(held.st[Words::KIND]) {
        return rdf_literals::put_string(doc, held);
    }
    simple_terms::put_term(doc, held)
}

// A node where one is awaited. The level of zeros ends what is read in its brackets.
fn node(doc: &[u8], held: &mut Held<'_>) -> Result<(), Refusal>
    requires { (Ready doc.now held.old × Spotted held.old) × Awaited doc.now held.old }
    ensures { Fills doc.now held.old held.new (code result) × Steady held.old held.new (code result) }
{
    mark(&mut held.st, 0, 0);
    let mut why = Refusal::Grammar;
    match value(doc, held, &mut why) {
        End::Read => Ok(()),
        End::Refused => Err(why),
    }
}

// Predicates of s and their objects, from a predicate on to what cannot go on with them.
pub fn properties(doc: &[u8], held: &mut Held<'_>, s: usize) -> Result<(), Refusal>
    requires { (Ready doc.now held.old × (s < word_limit)) × ((0 < s) × (code_among verb_kinds (kind_in held.old.st) ≡ true)) }
    ensures { Properties doc.now held.old held.new s (code result) }
{
    loop {
        nodes::aim(&mut held.st, 0, 0, 0, 0, 0);
        leaf(doc, held)?;
        let p = held.st[Words::NODE];
        objects(doc, held, s, p)?;
        if held.st[Words::KIND] != Kind::SEMICOLON {
            return Ok(());
        }
        skip_semicolons(doc, &mut held.st);
        if !nodes::is_verb(held.st[Words::KIND]) {
            return Ok(());
        }
    }
}

// The objects of s and p.
fn objects(doc: &[u8], held: &mut Held<'_>, s: usize, p: usize) -> Result<(), Refusal>
    requires { (Ready doc.now held.old × ((s < word_limit) × (p < word_limit))) × ((0 < s) × (0 < p)) }
    ensures { Objects doc.now held.old held.new s p (code result) }
{
    loop {
        nodes::aim(&mut held.st, 0, s, p, 0, 0);
        node(doc, held)?;
        if held.st[Words::KIND] != Kind::COMMA {
            return Ok(());
        }
        nodes::pass(doc, &mut held.st);
    }
}

// The elements of a list, behind its bracket, and its end.
pub fn elements(doc: &[u8], held: &mut Held<'_>) -> Result<(), Refusal>
    requires { (Ready doc.now held.old × Spotted held.old) × (0 < depth_in held.old.st) }
    ensures { Lists doc.now held.old held.new (code result) }
{
    let x = held.st[Words::X];
    let y = held.st[Words::Y];
    let opened = held.st[Words::OPENED];
    let mut last: usize = 0;
    loop {
        nodes::aim(&mut held.st, 1, x, y, opened, last);
        if held.st[Words::KIND] == Kind::CLOSE_PAREN {
            return simple_terms::close_list(doc, held);
        }
        let cell = held.st[Words::TERMS] + 1;
        node(doc, held)?;
        last = cell;
    }
}

// Puts into the level of this depth what is resumed once a node is complete here: behind an object of the subject x and the
// predicate y; in a list, x being 0, behind the cell y; with zeros the caller goes on.
fn mark(st: &mut [usize; Layout::WORDS], x: usize, y: usize)
    requires { (length st.old ≡ words_size) × (depth_in st.old ≤ depth_limit) }
    ensures { Marked st.old st.new x y }
{
    let i = Words::LEVELS + Words::LEVEL_SIZE * st[Words::DEPTH];
    st[i] = x;
    st[i + 1] = y;
}

// The two words of the level of this depth.
fn level_x(st: &[usize; Layout::WORDS]) -> usize
    requires { (length st.now ≡ words_size) × (depth_in st.now ≤ depth_limit) }
    ensures { result ≡ level_x st.now (depth_in st.now) }
{
    let i = Words::LEVELS + Words::LEVEL_SIZE * st[Words::DEPTH];
    st[i]
}

fn level_y(st: &[usize; Layout::WORDS]) -> usize
    requires { (length st.now ≡ words_size) × (depth_in st.now ≤ depth_limit) }
    ensures { result ≡ level_y st.now (depth_in st.now) }
{
    let i = Words::LEVELS + Words::LEVEL_SIZE * st[Words::DEPTH];
    st[i + 1]
}

// Whether a token of this kind begins a node without brackets.
fn is_leaf(kind: usize) -> bool
    ensures { result ≡ (code_among term_kinds kind || code_among strings kind) }
{
    if nodes::is_term(kind) {
        return true;
    }
    nodes::is_string(kind)
}

// The list at the cursor's back was opened at a place; what it belongs to itself is put where its first element looks for it.
fn enter_list(st: &mut [usize; Layout::WORDS], at: usize, cell: usize)
    requires { length st.old ≡ words_size }
    ensures { Entered st.old st.new at cell }
{
    if st[Words::LIST] == 0 {
        let x = st[Words::X];
        let y = st[Words::Y];
        nodes::aim(st, 1, x, y, at, 0);
        return;
    }
    nodes::aim(st, 1, cell, 0, at, 0);
}

// ---- The readers that call each other

// Every call among them is in tail position, so that the compiler can make it a jump and a bracket costs no stack: what is
// resumed behind it stands in the levels. The measure is the remaining document; where no token is passed, the order is
// resume, then after_object, contents and element, then the others.

// How a reader ends; `why` it refuses is said beside it. No Result and no bool: a Result is two registers, and calls do not say that
// a bool fills its own, so that none of them is a jump. Measured at depth 64: 21,000 and 31,320 bytes of stack.
#[derive(Clone, Copy, Debug, PartialEq, Eq)]
pub enum End {
    Read,
    Refused,
}

// A node where one is awaited; then what is resumed behind it.
#[cycle(nesting)]
fn value(doc: &[u8], held: &mut Held<'_>, why: &mut Refusal) -> End
    requires { (Ready doc.now held.old × Spotted held.old) × (Awaited doc.now held.old × SomeLevels held.old.st (depth_in held.old.st)) }
    ensures { Values doc.now held.old held.new (told result why.new) }
{
    let kind = held.st[Words::KIND];
    if is_leaf(kind) {
        if let Err(refusal) = leaf(doc, held) {
            *why = refusal;
            return End::Refused;
        }
        return resume(doc, held, why);
    }
    if kind == Kind::OPEN_BRACKET {
        if let Err(refusal) = simple_terms::put_bracket(doc, held) {
            *why = refusal;
            return End::Refused;
        }
        return contents(doc, held, why);
    }
    if kind == Kind::OPEN_PAREN {
        let at = held.st[Words::AT];
        let cell = held.st[Words::TERMS] + 1;
        if let Err(refusal) = simple_terms::put_paren(doc, held) {
            *why = refusal;
            return End::Refused;
        }
        enter_list(&mut held.st, at, cell);
        return element(doc, held, why);
    }
    *why = simulation::unexpected(doc, &held.st);
    End::Refused
}

// What the level of this depth says; nothing where it says that the caller goes on.
#[cycle(nesting)]
fn resume(doc: &[u8], held: &mut Held<'_>, why: &mut Refusal) -> End
    requires { Ready doc.now held.old × SomeLevels held.old.st (depth_in held.old.st) }
    ensures { Resumes doc.now held.old held.new (told result why.new) }
{
    if level_x(&held.st) != 0 {
        return after_object(doc, held, why);
    }
    let last = level_y(&held.st);
    if last == 0 {
        return End::Read;
    }
    nodes::aim(&mut held.st, 1, 0, 0, 0, last);
    element(doc, held, why)
}

// What is in a bracket, behind it.
#[cycle(nesting)]
fn contents(doc: &[u8], held: &mut Held<'_>, why: &mut Refusal) -> End
    requires { (Ready doc.now held.old × (node_in held.old.st < word_limit)) × ((0 < node_in held.old.st) × Deep held.old.st) }
    ensures { Contents doc.now held.old held.new (told result why.new) }
{
    if !nodes::is_verb(held.st[Words::KIND]) {
        return close_bracket(doc, held, why);
    }
    let n = held.st[Words::NODE];
    mark(&mut held.st, n, 0);
    predicate(doc, held, why)
}

// The end of a bracket.
#[cycle(nesting)]
fn close_bracket(doc: &[u8], held: &mut Held<'_>, why: &mut Refusal) -> End
    requires { Ready doc.now held.old × Deep held.old.st }
    ensures { Closing doc.now held.old held.new (told result why.new) }
{
    if held.st[Words::KIND] != Kind::CLOSE_BRACKET {
        *why = simulation::unexpected(doc, &held.st);
        return End::Refused;
    }
    nodes::leave(doc, &mut held.st);
    resume(doc, held, why)
}

// A predicate of the subject that the level holds; then its first object.
#[cycle(nesting)]
fn predicate(doc: &[u8], held: &mut Held<'_>, why: &mut Refusal) -> End
    requires { (Ready doc.now held.old × (level_x held.old.st (depth_in held.old.st) < word_limit)) × (((0 < level_x held.old.st (depth_in held.old.st)) × (code_among verb_kinds (kind_in held.old.st) ≡ true)) × Deep held.old.st) }
    ensures { Predicates doc.now held.old held.new (told result why.new) }
{
    let s = level_x(&held.st);
    nodes::aim(&mut held.st, 0, 0, 0, 0, 0);
    if let Err(refusal) = leaf(doc, held) {
        *why = refusal;
        return End::Refused;
    }
    let p = held.st[Words::NODE];
    mark(&mut held.st, s, p);
    nodes::aim(&mut held.st, 0, s, p, 0, 0);
    value(doc, held, why)
}

// Behind an object in a bracket: one more, or a predicate, or the end.
#[cycle(nesting)]
fn after_object(doc: &[u8], held: &mut Held<'_>, why: &mut Refusal) -> End
    requires { Ready doc.now held.old × ((0 < level_x held.old.st (depth_in held.old.st)) × SomeLevels held.old.st (depth_in held.old.st)) }
    ensures { Follows doc.now held.old held.new (told result why.new) }
{
    if held.st[Words::KIND] == Kind::COMMA {
        nodes::pass(doc, &mut held.st);
        let s = level_x(&held.st);
        let p = level_y(&held.st);
        nodes::aim(&mut held.st, 0, s, p, 0, 0);
        return value(doc, held, why);
    }
    if held.st[Words::KIND] != Kind::SEMICOLON {
        return close_bracket(doc, held, why);
    }
    skip_semicolons(doc, &mut held.st);
    if nodes::is_verb(held.st[Words::KIND]) {
        return predicate(doc, held, why);
    }
    close_bracket(doc, held, why)
}

// The next element of a list, or its end.
#[cycle(nesting)]
fn element(doc: &[u8], held: &mut Held<'_>, why: &mut Refusal) -> End
    requires { (Ready doc.now held.old × Spotted held.old) × ((list_in held.old.st ≡ 1) × Deep held.old.st) }
    ensures { Elements doc.now held.old held.new (told result why.new) }
{
    if held.st[Words::KIND] == Kind::CLOSE_PAREN {
        if let Err(refusal) = simple_terms::close_list(doc, held) {
            *why = refusal;
            return End::Refused;
        }
        return resume(doc, held, why);
    }
    let cell = held.st[Words::TERMS] + 1;
    mark(&mut held.st, 0, cell);
    value(doc, held, why)
}
