// The pairing: which blank node of the left stands for which of the right, and whether it may be lent. Numbers are found along chains:
// of the pairs by one side's numbers, of the terms by their fourth word.
ghost use Rattle.std.specs.Prelude.{◌≡◌, not, ◌*◌, ◌≤◌, ◌<◌, eqb, length};
ghost use Rattle.table.specs.Layout.{term_size, word_limit};
ghost use Rattle.usable.specs.Lent.{Stands, slices_of};
ghost use Rattle.chains.specs.Chains.{behind, word_at, Chained};
ghost use Rattle.comparison.specs.Comparison.{any, pairs, has_node, known, once, legal};
ghost use Rattle.comparison.specs.Partners.{partner, ByLeft, ByLeft-prop};
ghost use Rattle.comparison.specs.Code.{with_terms, is_node};

use chains::{Column, Links};
use table::{Layout, Tables, TermKind, TermWord};

// The words of a pair.
#[derive(Drop)]
pub struct Pair {}

impl Pair {
    pub const LEFT: usize = 0;

    pub const RIGHT: usize = 1;

    pub const WORDS: usize = 2;
}

// One side's numbers of the pairs.
fn numbers<'a>(pairing: &'a [u32], side: usize) -> Column<'a>
    requires { side < 2 }
    ensures { (result.words.now ≡ pairing.now) × ((result.from ≡ side) × ((result.step ≡ 2) × (result.count ≡ pairs pairing.now))) }
{
    Column {
        words: pairing,
        from: side,
        step: Pair::WORDS,
        count: pairing.len() / Pair::WORDS,
    }
}

// The pairs, linked by their left numbers.
#[derive(Clone, Copy)]
pub struct Pairing<'a> {
    pub words: &'a [u32],
    pub links: Links<'a>,
    ghost counted: { links.count ≡ pairs words.now },
    ghost linked: { ByLeft words.now links.words.now } by { ByLeft-prop words.now links.words.now },
}

impl<'a> Pairing<'a> {
    // Links the pairs in words that are lent.
    pub fn new(words: &'a [u32], chain: &'a mut [u32]) -> Pairing<'a>
        ensures { result.words.now ≡ words.now }
    {
        let lefts = numbers(words, Pair::LEFT);
        lefts.link(chain);
        Pairing {
            words,
            links: Links::new(chain, lefts.count),
        }
    }

    // The right number that the left number m is paired with.
    pub fn partner(&self, m: usize) -> Option<usize>
        ensures { (behind result ≡ partner self.now.words.now m) × (behind result ≤ word_limit) }
    {
        let found = self
            .links
            .find(&numbers(self.words, Pair::LEFT), self.links.first(m), m)?;
        Some(numbers(self.words, Pair::RIGHT).word(found))
    }
}

// Whether the number of the pair i stands in no pair before. The pairs are linked by these numbers.
fn is_first(numbers: &Column<'_>, links: &Links<'_>, i: usize) -> bool
    requires { (i < numbers.now.count) × ((links.now.count ≡ numbers.now.count) × Chained links.now.words.now links.now.count (word_at numbers.now.words.now numbers.now.from numbers.now.step)) }
    ensures { result ≡ not (any (λ j. eqb (word_at numbers.now.words.now numbers.now.from numbers.now.step j) (word_at numbers.now.words.now numbers.now.from numbers.now.step i)) i) }
{
    let before = links.before(i);
    links.find(numbers, before, numbers.word(i)).is_none()
}

// Whether no number of a side stands there twice.
fn is_once(numbers: &Column<'_>, index: &mut [u32]) -> bool
    ensures { (result ≡ once (word_at numbers.now.words.now numbers.now.from numbers.now.step) numbers.now.count) × (length index.new ≡ length index.old) }
{
    numbers.link(index);
    let links = Links::new(index, numbers.count);
    (0..numbers.count).all(|i| is_first(numbers, &links, i))
}

// Whether the term k is the blank node n.
#[tactic(auto, unfolding(table::specs::Layout::entry_at))]
fn is_node(tables: &Tables<'_, '_>, n: usize, k: usize) -> bool
    requires { Stands tables.now.terms.now k }
    ensures { result ≡ is_node (slices_of tables.now) n k }
{
    tables.term_word(k, TermWord::KIND) == TermKind::BLANK
        && tables.term_word(k, TermWord::FOURTH) == n
}

// Whether one of so many terms is the blank node n. The terms are linked by their fourth words.
fn has_node(tables: &Tables<'_, '_>, count: usize, links: &Links<'_>, n: usize) -> bool
    requires { (term_size * count ≤ length tables.now.terms.now) × ((links.now.count ≡ count) × Chained links.now.words.now count (word_at tables.now.terms.now 3 term_size)) }
    ensures { result ≡ has_node (with_terms tables.now count) n }
{
    for k in links.along(links.first(n)) {
        if is_node(tables, n, k + 1) {
            return true;
        }
    }
    false
}

// Whether every number of a side is a blank node of its table, which has so many terms.
fn is_known(numbers: &Column<'_>, tables: &Tables<'_, '_>, count: usize, index: &mut [u32]) -> bool
    requires { term_size * count ≤ length tables.now.terms.now }
    ensures { (result ≡ known (with_terms tables.now count) (word_at numbers.now.words.now numbers.now.from numbers.now.step) numbers.now.count) × (length index.new ≡ length index.old) }
{
    let nodes = Column {
        words: tables.terms,
        from: TermWord::FOURTH,
        step: Layout::TERM_WORDS,
        count,
    };
    nodes.link(index);
    let links = Links::new(index, nodes.count);
    (0..numbers.count).all(|i| has_node(tables, count, &links, numbers.word(i)))
}

// Whether the pairing may be lent for these tables, of which so many terms count.
pub fn is_legal(
    pairing: &[u32],
    left: &Tables<'_, '_>,
    left_count: usize,
    right: &Tables<'_, '_>,
    right_count: usize,
    index: &mut [u32],
) -> bool
    requires { (term_size * left_count ≤ length left.now.terms.now) × (term_size * right_count ≤ length right.now.terms.now) }
    ensures { (result ≡ legal (with_terms left.now left_count) (with_terms right.now right_count) pairing.now) × (length index.new ≡ length index.old) }
{
    if pairing.len() % Pair::WORDS != 0 {
        return false;
    }
    let lefts = numbers(pairing, Pair::LEFT);
    if !is_once(&lefts, index) {
        return false;
    }
    let rights = numbers(pairing, Pair::RIGHT);
    if !is_once(&rights, index) {
        return false;
    }
    if !is_known(&lefts, left, left_count, index) {
        return false;
    }
    is_known(&rights, right, right_count, index)
}
