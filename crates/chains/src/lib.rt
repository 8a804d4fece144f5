// An index in lent words: the numbers below a count, each with a key, in chains by remainders of the keys, from the greatest down.
// In front stand the heads, one for each remainder, behind them a link for each number, at the end the keys. Words that do not
// suffice have no heads: then all numbers are one chain, and what is found there is the same.
#![tactic(auto)]

ghost use Rattle.std.specs.Prelude.{◌≡◌, ℕ, ◌+◌, ◌*◌, ◌≤◌, ◌<◌, length, get_or, Some};
ghost use Rattle.chains.specs.Chains.{behind, heads, latest, key_at, word_at, has_word, Chained, OnChain, First, Before, KeyOf, MayHave, WordsIn, linked_one, MayLink, Falling};
ghost use Rattle.std.specs.Iterator.{at_most};

// Numbers below a count, each with a word: the words stand so far apart from a place on.
#[derive(Clone, Copy)]
pub struct Column<'a> {
    pub words: &'a [u32],
    pub from: usize,
    pub step: usize,
    pub count: usize,
    ghost stands: { WordsIn words.now from step count },
}

impl<'a> Column<'a> {
    // The word of the number j.
    pub fn word(&self, j: usize) -> usize
        requires { j < self.now.count }
        ensures { (result ≡ word_at self.now.words.now self.now.from self.now.step j) × (result < 4294967296) }
    {
        self.words[self.from + self.step * j] as usize
    }

    // Links the numbers by their words.
    pub fn link(&self, chain: &mut [u32])
        ensures { (length chain.new ≡ length chain.old) × Chained chain.new self.now.count (word_at self.now.words.now self.now.from self.now.step) }
    {
        link(chain, self.count, |j| self.word(j));
    }
}

// Numbers below a count, linked in lent words.
#[derive(Clone, Copy)]
pub struct Links<'a> {
    pub words: &'a [u32],
    pub count: usize,
    pub head_count: usize,
    ghost headed: { head_count ≡ heads (length words.now) count },
}

impl<'a> Links<'a> {
    pub fn new(words: &'a [u32], count: usize) -> Links<'a>
        ensures { (result.words.now ≡ words.now) × (result.count ≡ count) }
    {
        let head_count = head_count(words.len(), count);
        Links {
            words,
            count,
            head_count,
        }
    }

    // The greatest number in the chain of a key.
    pub fn first(&self, key: usize) -> Option<usize>
        ensures { First self.now.words.now self.now.count key result }
    {
        if self.head_count == 0 {
            return self.count.checked_sub(1);
        }
        linked(self.words, key % self.head_count)
    }

    // The next smaller number in the chain of the number j.
    pub fn before(&self, j: usize) -> Option<usize>
        requires { j < self.now.count }
        ensures next { Before self.now.words.now self.now.count j result }
        ensures falls { Falling self.now.words.now self.now.count → behind result ≤ j }
    {
        if self.head_count == 0 {
            return j.checked_sub(1);
        }
        linked(self.words, self.head_count + j)
    }

    // The key of the number j, where there are heads.
    pub fn key_of(&self, j: usize) -> Option<usize>
        requires { j < self.now.count }
        ensures { KeyOf self.now.words.now self.now.count j result }
    {
        if self.head_count == 0 {
            return None;
        }
        Some(self.words[self.head_count + self.count + j] as usize)
    }

    // Whether the number j may have the key.
    pub fn may_have(&self, j: usize, key: usize) -> bool
        requires { j < self.now.count }
        ensures { MayHave self.now.words.now self.now.count j key result }
    {
        self.key_of(j).is_none_or(|own| own == key)
    }

    // The numbers of a chain, from a place on.
    pub fn along(&self, from: Option<usize>) -> Chain<'a>
        requires { (behind from ≤ self.now.count) × Falling self.now.words.now self.now.count }
        ensures { (result.links ≡ self.now) × (result.at ≡ from) }
    {
        Chain {
            links: *self,
            at: from,
        }
    }

    // The greatest number whose word is x, from a place in the chain of x on. The numbers are linked by these words.
    pub fn find(&self, column: &Column<'_>, from: Option<usize>, x: usize) -> Option<usize>
        requires { (self.now.count ≡ column.now.count) × (Chained self.now.words.now self.now.count (word_at column.now.words.now column.now.from column.now.step) × ((behind from ≤ self.now.count) × OnChain self.now.words.now self.now.count (word_at column.now.words.now column.now.from column.now.step) x (behind from))) }
        ensures { behind result ≡ latest (has_word column.now.words.now column.now.from column.now.step x) (behind from) }
    {
        for j in self.along(from) {
            if column.word(j) == x {
                return Some(j);
            }
        }
        None
    }
}

// The numbers of a chain, from the greatest down.
#[derive(Clone, Copy)]
pub struct Chain<'a> {
    pub links: Links<'a>,
    pub at: Option<usize>,
    ghost low: { behind at ≤ links.count },
    ghost falling: { Falling links.words.now links.count },
}

impl<'a> Iterator for Chain<'a> {
    type Item = usize;

    ghost next_gives = { λ s r t. (t.links ≡ s.links) × ((r ≡ s.at) × ((j : ℕ) → s.at ≡ Some j → Before s.links.words.now s.links.count j t.at)) };

    ghost remaining = { λ s. at_most (behind s.at) };

    fn next(&mut self) -> Option<usize> {
        let j = self.at?;
        self.at = self.links.before(j);
        Some(j)
    }
}

// How many heads so many words have, beside a link and a key for each of n numbers.
pub fn head_count(size: usize, n: usize) -> usize
    ensures { result ≡ heads size n }
{
    if 4294967295 < n {
        return 0;
    }
    if size / 2 < n {
        return 0;
    }
    size - 2 * n
}

// The number that a head or a link names.
fn linked(words: &[u32], k: usize) -> Option<usize>
    requires { k < length words.now }
    ensures { behind result ≡ get_or words.now k 0 }
{
    (words[k] as usize).checked_sub(1)
}

// The number j becomes the head of its chain, and is linked to the head before it.
fn link_one(chain: &mut [u32], count: usize, n: usize, j: usize)
    requires { (1 ≤ count) × ((count + 2 * n ≤ length chain.old) × ((j < n) × (n < 4294967296))) }
    ensures { chain.new ≡ linked_one chain.old count n j }
{
    let head = chain[count + n + j] as usize % count;
    let before = chain[head];
    chain[count + j] = before;
    chain[head] = j as u32 + 1;
}

// Links the numbers below n, whose keys stand at the end of the words.
fn link_keys(chain: &mut [u32], n: usize)
    ensures { (length chain.new ≡ length chain.old) × Chained chain.new n (key_at chain.old n) }
{
    let count = head_count(chain.len(), n);
    if count == 0 {
        return;
    }
    chain[..count].fill(0);
    for j in 0..n {
        link_one(chain, count, n, j);
    }
}

// Links the numbers below n by their keys.
pub fn link<F: Fn(usize) -> usize>(chain: &mut [u32], n: usize, key_of: F)
    requires { MayLink (F.pre key_of) (F.post key_of) n }
    ensures { (length chain.new ≡ length chain.old) × ((f : ℕ → ℕ) → ((j k : ℕ) → j < n → F.post key_of j k → k ≡ f j) → Chained chain.new n f) }
{
    let count = head_count(chain.len(), n);
    if count == 0 {
        return;
    }
    for j in 0..n {
        chain[count + n + j] = key_of(j) as u32;
    }
    link_keys(chain, n);
}
