// The reader's state: one array of numbers beside the lent slices. Its first words are the environment's, the rest
// say how far the tables are filled, which token stands at the cursor, and where the next node belongs.
#![tactic(auto)]

ghost use Rattle.std.specs.Prelude.{◌≡◌};
ghost use Rattle.state.specs.Words.{counts_of};
ghost use Rattle.state.specs.Supplies.{supplied};

use environment::Layout;
use spelling::Form;
use table::TermKind;
use terms::Counts;

#[derive(Drop)]
pub struct Words {}

impl Words {
    // How many rows, terms, bytes of the store and blank nodes there are.
    pub const ROWS: usize = Layout::OWN;

    pub const TERMS: usize = Self::ROWS + 1;

    pub const USED: usize = Self::TERMS + 1;

    pub const BLANKS: usize = Self::USED + 1;
    // Numbers of IRIs that were asked for before: where a search begins, and nothing that is believed.
    pub const KEPT: usize = Self::BLANKS + 1;

    pub const KEPT_SIZE: usize = 32;
    // The number of the node that was written last.
    pub const NODE: usize = Self::KEPT + Self::KEPT_SIZE;
    // The token at the cursor: its kind, or END, or UNREADABLE (token::Kind); its place and length; how far no prefixed name begins behind it.
    pub const KIND: usize = Self::NODE + 1;

    pub const AT: usize = Self::KIND + 1;

    pub const LEN: usize = Self::AT + 1;

    pub const CLEAR: usize = Self::LEN + 1;
    // How many brackets are open; the graph that is open.
    pub const DEPTH: usize = Self::CLEAR + 1;

    pub const GRAPH: usize = Self::DEPTH + 1;
    // Where the next node belongs: in a list or not; to what; where the list was opened, and its last cell.
    pub const LIST: usize = Self::GRAPH + 1;

    pub const X: usize = Self::LIST + 1;

    pub const Y: usize = Self::X + 1;

    pub const OPENED: usize = Self::Y + 1;

    pub const LAST: usize = Self::OPENED + 1;
    // What is resumed at each depth, from 0 to the limit, once a node is complete there: so many words a depth.
    pub const LEVELS: usize = Self::LAST + 1;

    pub const LEVEL_SIZE: usize = 2;
}

// How many terms, bytes of the store and blank nodes there are.
pub fn counts(st: &[usize; Layout::WORDS]) -> Counts
    ensures { result ≡ counts_of st.now }
{
    Counts {
        terms: st[Words::TERMS],
        used: st[Words::USED],
        blanks: st[Words::BLANKS],
    }
}

// Where a node belongs. In a list it gets a new cell behind `last` (0: it is the first) of the list that was opened at
// `opened` and itself belongs to x and y. To x and y: x is 0 for a node that is no object; y is 0 for the element of
// the cell x; else it is the object of the subject x and the predicate y.
#[derive(Clone, Copy)]
pub struct Spot {
    pub list: bool,
    pub x: usize,
    pub y: usize,
    pub opened: usize,
    pub last: usize,
    pub at: usize,
}

// The lent slices and the array, which every reader is handed together.
#[derive(Drop)]
pub struct Held<'a> {
    pub work: &'a mut [u8],
    pub rows: &'a mut [u32],
    pub terms: &'a mut [u32],
    pub store: &'a mut [u8],
    pub st: [usize; Layout::WORDS],
}

// A node, by its kind. The IRI, of the node or its datatype, is a part of the work slice before a back of this form.
#[derive(Clone, Copy)]
pub struct Node {
    pub kind: usize,
    pub start: usize,
    pub end: usize,
    pub form: Form,
    pub text: Form,
}

// The kinds of node: those of terms, a blank node with its label among them, and a new blank node.
impl Node {
    pub const IRI: usize = TermKind::IRI;

    pub const BLANK: usize = TermKind::BLANK;

    pub const LITERAL: usize = TermKind::LITERAL;

    pub const TAGGED: usize = TermKind::TAGGED;

    pub const NEW: usize = Self::TAGGED + 1;
}

// The IRIs that lists supply.
#[derive(Clone, Copy, Debug, PartialEq, Eq)]
pub enum Supplied {
    First,
    Rest,
    Nil,
}

impl Supplied {
    pub fn text(self) -> &'static [u8]
        ensures { result.now ≡ supplied self }
    {
        match self {
            Supplied::First => b"http://www.w3.org/1999/02/22-rdf-syntax-ns#first",
            Supplied::Rest => b"http://www.w3.org/1999/02/22-rdf-syntax-ns#rest",
            Supplied::Nil => b"http://www.w3.org/1999/02/22-rdf-syntax-ns#nil",
        }
    }
}
