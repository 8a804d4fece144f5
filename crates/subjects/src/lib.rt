// Subjects: terms, brackets and lists; and what comes behind them.
#![tactic(auto)]

ghost use Rattle.std.specs.Prelude.{◌≡◌, ◌∷◌, true, ◌≤◌, ◌<◌, length, get_or};
ghost use Rattle.dataset.specs.Terms.{blank, bracket};
ghost use Rattle.machine.specs.Memory.{new_term};
ghost use Rattle.limits.specs.Refusal.{code};
ghost use Rattle.state.specs.Words.{x_word, kind_in};
ghost use Rattle.state.specs.Writes.{placed, opened_at};
ghost use Rattle.simulation.specs.Simulation.{code_among, Ready, Does};
ghost use Rattle.nodes.specs.Nodes.{spot_of, Spotted, Numbers, PutsTerm, term_kinds, verb_kinds};
ghost use Rattle.token.specs.Kind.{kind_code, kw_a, open_bracket, open_paren};
ghost use Rattle.nesting.specs.Nesting.{Lists, Properties};
ghost use Rattle.subjects.specs.Subjects.{label_kinds, Subject, Predicates};
ghost use Rattle.table.specs.Layout.{word_limit};

use environment::Layout;
use limits::Refusal;
use state::{Held, Words};
use token::Kind;

// Whether a token of this kind is a graph's label, or a subject, by itself.
pub fn is_label(kind: usize) -> bool
    ensures { result ≡ code_among label_kinds kind }
{
    (kind == Kind::IRIREF)
        | (kind == Kind::PNAME_NS)
        | (kind == Kind::PNAME_LN)
        | (kind == Kind::BLANK_NODE_LABEL)
}

// A term as subject.
fn term_subject(doc: &[u8], held: &mut Held<'_>) -> Result<(), Refusal>
    requires { Ready doc.now held.old × (code_among label_kinds (kind_in held.old.st) ≡ true) }
    ensures { Subject doc.now held.old held.new (code result) }
{
    nodes::aim(&mut held.st, 0, 0, 0, 0, 0);
    nesting::leaf(doc, held)?;
    let n = held.st[Words::NODE];
    nodes::aim(&mut held.st, 0, n, 0, 0, 0);
    Ok(())
}

// A bracket as subject.
fn bracket_subject(doc: &[u8], held: &mut Held<'_>) -> Result<(), Refusal>
    requires { Ready doc.now held.old × (kind_in held.old.st ≡ kind_code open_bracket) }
    ensures { Subject doc.now held.old held.new (code result) }
{
    nodes::aim(&mut held.st, 0, 0, 0, 0, 0);
    simple_terms::put_bracket(doc, held)?;
    let n = held.st[Words::NODE];
    if held.st[Words::KIND] == Kind::CLOSE_BRACKET {
        nodes::leave(doc, &mut held.st);
        nodes::aim(&mut held.st, 0, n, 0, 0, 0);
        return Ok(());
    }
    if !nodes::is_verb(held.st[Words::KIND]) {
        return Err(simulation::unexpected(doc, &held.st));
    }
    nesting::properties(doc, held, n)?;
    if held.st[Words::KIND] != Kind::CLOSE_BRACKET {
        return Err(simulation::unexpected(doc, &held.st));
    }
    nodes::leave(doc, &mut held.st);
    nodes::aim(&mut held.st, 2, n, 0, 0, 0);
    Ok(())
}

// A list as subject.
fn list_subject(doc: &[u8], held: &mut Held<'_>) -> Result<(), Refusal>
    requires { Ready doc.now held.old × (kind_in held.old.st ≡ kind_code open_paren) }
    ensures { Subject doc.now held.old held.new (code result) }
{
    let at = held.st[Words::AT];
    nodes::aim(&mut held.st, 0, 0, 0, 0, 0);
    simple_terms::put_paren(doc, held)?;
    nodes::aim(&mut held.st, 0, 0, 0, at, 0);
    let kind = held.st[Words::KIND];
    let first = held.st[Words::TERMS] + 1;
    nesting::elements(doc, held)?;
    if kind == Kind::CLOSE_PAREN {
        let n = held.st[Words::NODE];
        nodes::aim(&mut held.st, 1, n, 0, 0, 0);
        return Ok(());
    }
    nodes::aim(&mut held.st, 1, first, 0, 0, 0);
    Ok(())
}

pub fn subject(doc: &[u8], held: &mut Held<'_>) -> Result<(), Refusal>
    requires { Ready doc.now held.old }
    ensures { Subject doc.now held.old held.new (code result) }
{
    let kind = held.st[Words::KIND];
    if is_label(kind) {
        return term_subject(doc, held);
    }
    if kind == Kind::OPEN_BRACKET {
        return bracket_subject(doc, held);
    }
    if kind == Kind::OPEN_PAREN {
        return list_subject(doc, held);
    }
    Err(simulation::unexpected(doc, &held.st))
}

// What comes behind a subject.
pub fn predicates(doc: &[u8], held: &mut Held<'_>) -> Result<(), Refusal>
    requires { (Ready doc.now held.old × (get_or held.old.st x_word 0 < word_limit)) × (0 < get_or held.old.st x_word 0) }
    ensures { Predicates doc.now held.old held.new (code result) }
{
    let n = held.st[Words::X];
    if nodes::is_verb(held.st[Words::KIND]) {
        return nesting::properties(doc, held, n);
    }
    if held.st[Words::LIST] == 2 {
        return Ok(());
    }
    Err(simulation::unexpected(doc, &held.st))
}
