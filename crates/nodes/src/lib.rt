// Nodes at their places: what one token writes there, with its refusals. These routines take the reader's thin references
// and are called from its recursion; they hold no nesting themselves.
#![tactic(auto)]

ghost use Rattle.std.specs.Prelude.{◌≡◌, ◌∷◌, [], true, ℕ, ◌+◌, ◌-◌, ◌≤◌, ◌<◌, length, get_or};
ghost use Rattle.std.proofs.Math.Option.{some};
ghost use Rattle.environment.specs.Code.{words_size};
ghost use Rattle.token.specs.Kind.{strings};
ghost use Rattle.dataset.specs.Terms.{blank, bracket};
ghost use Rattle.machine.specs.Memory.{Write, new_term};
ghost use Rattle.machine.specs.Rules.{find_rule};
ghost use Rattle.state.specs.Words.{depth_in, graph_in};
ghost use Rattle.state.specs.Cursor.{Cursor, TokenHere};
ghost use Rattle.state.specs.Writes.{placed, opened_at, closed};
ghost use Rattle.simulation.specs.Simulation.{code_among, here, Ready, Gives, Does};
ghost use Rattle.nodes.specs.Nodes.{term_rules, spot_of, Spotted, Fills, Aimed, Passed, Steady, term_kinds, verb_kinds};

use environment::Layout;
use state::Words;
use token::Kind;

// Whether a token of this kind is a predicate: an IRI, or a.
pub fn is_verb(kind: usize) -> bool
    ensures { result ≡ code_among verb_kinds kind }
{
    (kind == Kind::IRIREF) | (kind == Kind::PNAME_NS) | (kind == Kind::PNAME_LN) | (kind == Kind::A)
}

// Whether a token of this kind is a term by itself, other than a string.
pub fn is_term(kind: usize) -> bool
    ensures { result ≡ code_among term_kinds kind }
{
    (kind == Kind::IRIREF)
        | (kind == Kind::PNAME_NS)
        | (kind == Kind::PNAME_LN)
        | (kind == Kind::BLANK_NODE_LABEL)
        | (kind == Kind::INTEGER)
        | (kind == Kind::DECIMAL)
        | (kind == Kind::DOUBLE)
        | (kind == Kind::TRUE)
        | (kind == Kind::FALSE)
}

pub fn is_string(kind: usize) -> bool
    ensures { result ≡ code_among strings kind }
{
    (kind == Kind::STRING_LITERAL_QUOTE)
        | (kind == Kind::STRING_LITERAL_SINGLE_QUOTE)
        | (kind == Kind::STRING_LITERAL_LONG_QUOTE)
        | (kind == Kind::STRING_LITERAL_LONG_SINGLE_QUOTE)
}

// Says where the next node belongs.
pub fn aim(
    st: &mut [usize; Layout::WORDS],
    list: usize,
    x: usize,
    y: usize,
    opened: usize,
    last: usize,
)
    requires { length st.old ≡ words_size }
    ensures { Aimed st.old st.new list x y opened last }
{
    st[Words::LIST] = list;
    st[Words::X] = x;
    st[Words::Y] = y;
    st[Words::OPENED] = opened;
    st[Words::LAST] = last;
}

// Goes behind a token that writes nothing.
pub fn pass(doc: &[u8], st: &mut [usize; Layout::WORDS])
    requires { (Cursor doc.now st.old × TokenHere doc.now st.old) × (length st.old ≡ words_size) }
    ensures { Passed doc.now st.old st.new (depth_in st.old) (graph_in st.old) }
{
    cursor::advance(doc, st);
}

// Goes behind a closing bracket.
pub fn leave(doc: &[u8], st: &mut [usize; Layout::WORDS])
    requires { (Cursor doc.now st.old × TokenHere doc.now st.old) × ((length st.old ≡ words_size) × (0 < depth_in st.old)) }
    ensures { Passed doc.now st.old st.new (depth_in st.old - 1) (graph_in st.old) }
{
    cursor::advance(doc, st);
    st[Words::DEPTH] = st[Words::DEPTH] - 1;
}

// Goes behind a brace: rows now stand in the graph g.
pub fn enter(doc: &[u8], st: &mut [usize; Layout::WORDS], g: usize)
    requires { (Cursor doc.now st.old × TokenHere doc.now st.old) × (length st.old ≡ words_size) }
    ensures { Passed doc.now st.old st.new (depth_in st.old) g }
{
    cursor::advance(doc, st);
    st[Words::GRAPH] = g;
}
