// Statements, directives and graphs, to the end of the document.
#![tactic(auto)]

ghost use Rattle.std.specs.Prelude.{◌≡◌, ◌∷◌, true, ◌≤◌, ◌<◌, length, get_or};
ghost use Rattle.dataset.specs.Terms.{blank, bracket};
ghost use Rattle.machine.specs.Memory.{new_term};
ghost use Rattle.grammar.specs.Productions.{trig};
ghost use Rattle.machine.specs.Read.{mode_of};
ghost use Rattle.limits.specs.Refusal.{code};
ghost use Rattle.state.specs.Words.{kind_in};
ghost use Rattle.state.specs.Writes.{placed, opened_at};
ghost use Rattle.simulation.specs.Simulation.{code_among, Ready, Does};
ghost use Rattle.nodes.specs.Nodes.{spot_of, Spotted, Numbers, PutsTerm, term_kinds, verb_kinds};
ghost use Rattle.token.specs.Kind.{kind_code, end_kind, kw_a, GRAPH};
ghost use Rattle.directives.specs.Directives.{directive_kinds};
ghost use Rattle.subjects.specs.Subjects.{label_kinds, Subject, Predicates};
ghost use Rattle.statements.specs.Statements.{Block, Graph, Statement, Plain, graph_label_test, ReadsAll};
ghost use Rattle.table.specs.Layout.{word_limit};

use environment::Layout;
use limits::Refusal;
use state::{Held, Words};
use token::Kind;

fn is_directive(kind: usize) -> bool
    ensures { result ≡ code_among directive_kinds kind }
{
    (kind == Kind::AT_PREFIX)
        | (kind == Kind::AT_BASE)
        | (kind == Kind::PREFIX)
        | (kind == Kind::BASE)
}

// The triples in braces, behind the opening one.
fn block(doc: &[u8], held: &mut Held<'_>) -> Result<(), Refusal>
    requires { Ready doc.now held.old }
    ensures { Block doc.now held.old held.new (code result) }
{
    loop {
        if held.st[Words::KIND] == Kind::CLOSE_BRACE {
            nodes::enter(doc, &mut held.st, 0);
            return Ok(());
        }
        subjects::subject(doc, held)?;
        subjects::predicates(doc, held)?;
        if held.st[Words::KIND] == Kind::CLOSE_BRACE {
            nodes::enter(doc, &mut held.st, 0);
            return Ok(());
        }
        if held.st[Words::KIND] != Kind::DOT {
            return Err(simulation::unexpected(doc, &held.st));
        }
        nodes::pass(doc, &mut held.st);
    }
}

// A graph in braces, behind its label.
fn graph(doc: &[u8], held: &mut Held<'_>, n: usize) -> Result<(), Refusal>
    requires { Ready doc.now held.old × (n < word_limit) }
    ensures { Graph doc.now held.old held.new n (code result) }
{
    if held.st[Words::KIND] != Kind::OPEN_BRACE {
        return Err(simulation::unexpected(doc, &held.st));
    }
    nodes::enter(doc, &mut held.st, n);
    block(doc, held)
}

// The label behind GRAPH, and its graph.
fn named_graph(doc: &[u8], held: &mut Held<'_>) -> Result<(), Refusal>
    requires { Ready doc.now held.old × (kind_in held.old.st ≡ kind_code GRAPH) }
    ensures { Statement trig doc.now held.old held.new (code result) }
{
    nodes::pass(doc, &mut held.st);
    nodes::aim(&mut held.st, 0, 0, 0, 0, 0);
    if subjects::is_label(held.st[Words::KIND]) {
        nesting::leaf(doc, held)?;
        let n = held.st[Words::NODE];
        return graph(doc, held, n);
    }
    if held.st[Words::KIND] != Kind::OPEN_BRACKET {
        return Err(simulation::unexpected(doc, &held.st));
    }
    simple_terms::put_bracket(doc, held)?;
    let g = held.st[Words::NODE];
    if held.st[Words::KIND] != Kind::CLOSE_BRACKET {
        return Err(simulation::unexpected(doc, &held.st));
    }
    nodes::leave(doc, &mut held.st);
    graph(doc, held, g)
}

// Triples outside braces, or a graph behind its label.
fn triples(doc: &[u8], held: &mut Held<'_>, mode: u8) -> Result<(), Refusal>
    requires { (Ready doc.now held.old × (mode ≤ 1)) × Plain mode (kind_in held.old.st) }
    ensures { Statement (mode_of mode) doc.now held.old held.new (code result) }
{
    subjects::subject(doc, held)?;
    if is_graph_label(&held.st, mode) {
        let n = held.st[Words::X];
        return graph(doc, held, n);
    }
    subjects::predicates(doc, held)?;
    if held.st[Words::KIND] != Kind::DOT {
        return Err(simulation::unexpected(doc, &held.st));
    }
    nodes::pass(doc, &mut held.st);
    Ok(())
}

// Whether a graph comes behind the subject that was read.
fn is_graph_label(st: &[usize; Layout::WORDS], mode: u8) -> bool
    ensures { result ≡ graph_label_test st.now mode }
{
    if mode != 0 {
        return false;
    }
    if st[Words::LIST] != 0 {
        return false;
    }
    st[Words::KIND] == Kind::OPEN_BRACE
}

// A statement, a directive or a graph.
fn one_statement(doc: &[u8], held: &mut Held<'_>, mode: u8) -> Result<(), Refusal>
    requires { (Ready doc.now held.old × (mode ≤ 1)) × (kind_in held.old.st ≡ end_kind → ⊥) }
    ensures { Statement (mode_of mode) doc.now held.old held.new (code result) }
{
    let kind = held.st[Words::KIND];
    if is_directive(kind) {
        return directives::directive(doc, held);
    }
    if mode == 0 {
        if kind == Kind::OPEN_BRACE {
            return graph(doc, held, 0);
        }
        if kind == Kind::GRAPH {
            return named_graph(doc, held);
        }
        return triples(doc, held, mode);
    }
    triples(doc, held, mode)
}

// All statements, to the end of the document.
pub fn statements(doc: &[u8], held: &mut Held<'_>, mode: u8) -> Result<(), Refusal>
    requires { Ready doc.now held.old × (mode ≤ 1) }
    ensures { ReadsAll (mode_of mode) doc.now held.old held.new (code result) }
{
    while held.st[Words::KIND] != Kind::END {
        one_statement(doc, held, mode)?;
    }
    Ok(())
}
