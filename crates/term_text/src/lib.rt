// The text of a term, asked for by its number, in tables that may hold anything.
#![tactic(auto)]

ghost use Rattle.std.specs.Prelude.{◌≡◌};
ghost use Rattle.limits.specs.Refusal.{code};
ghost use Rattle.table.specs.TermText.{term_text};
ghost use Rattle.term_text.specs.Shown.{lent, span_at, answer, text_of};

use limits::Refusal;
use table::{Layout, TermKind, TermWord, wide};

// Terms and the store as they are lent to this call. Unlike those of table::Tables, the counts may be any number.
#[derive(Clone, Copy)]
pub struct Terms<'t, 's> {
    pub terms: &'t [u32],
    pub count: usize,
    pub store: &'s [u8],
    pub used: usize,
}

// A part of the store.
#[derive(Clone, Copy)]
pub struct Span {
    pub start: usize,
    pub size: usize,
}

impl<'t, 's> Terms<'t, 's> {
    // Where the text lies, if the tables and the number are usable; any may be given.
    #[tactic(auto, unfolding(crate::specs::Shown::span_at, table::specs::TermText::shows, table::specs::Layout::entry_at))]
    pub fn find_span(&self, number: usize) -> Option<Span>
        ensures { result ≡ span_at (lent self.now) number }
    {
        if number < 1 || self.count < number {
            return None;
        }
        if self.terms.len() / Layout::TERM_WORDS < self.count || self.store.len() < self.used {
            return None;
        }
        let at = Layout::TERM_WORDS * (number - 1);
        let kind = wide(self.terms[at + TermWord::KIND]);
        if kind < TermKind::IRI || TermKind::TAGGED < kind {
            return None;
        }
        let start = wide(self.terms[at + TermWord::START]);
        let size = wide(self.terms[at + TermWord::SIZE]);
        (start + size <= self.used).then_some(Span { start, size })
    }

    // Whether the text can be shown.
    pub fn answer_text(&self, number: usize) -> Result<(), Refusal>
        ensures { code result ≡ answer (term_text (lent self.now) number) }
    {
        match self.find_span(number) {
            Some(_) => Ok(()),
            None => Err(Refusal::Tables),
        }
    }

    // The text, as that part of the store itself; an empty part where it is refused.
    pub fn show_text(&self, number: usize) -> &'s [u8]
        ensures { result.now ≡ text_of (term_text (lent self.now) number) }
    {
        match self.find_span(number) {
            Some(span) => &self.store[span.start..span.start + span.size],
            None => &self.store[..0],
        }
    }
}
