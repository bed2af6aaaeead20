// The unread input.
ghost use Rattle.std.specs.Prelude.{◌≡◌, ℕ, ◌≤◌, ◌+◌, length, drop, ◌<◌, ◌∷◌, ◌++◌, OnOk};
ghost use Rattle.html_tokens.specs.Input.{Peeks};
ghost use Rattle.html_tokens.specs.Copied.{AllPass, EndsAt, is_without};
ghost use Rattle.html_tokens.specs.Runs.{is_plain, plain_front};
ghost use Rattle.html_tokens.specs.declared.token.TextMode.{TextMode};
ghost use Rattle.std.specs.Prelude.{take};
ghost use Rattle.std.specs.Prelude.{MatchOption, true, []};

use crate::fronts::front_without;
use crate::queue::Queue;
use crate::token::TextMode;
use std::alloc::AllocError;

/// What was fed and not yet read, and whether that is all.
#[derive(Drop)]
pub struct Input {
    pub queue: Queue,
    pub finished: bool,
}

/// What a look ahead finds: a code point or the end, or that more input is wanted.
#[derive(Clone, Copy)]
pub enum Peek {
    Is(Option<char>),
    Wait,
}

/// Whether a code point of text stands for itself, whatever follows it.
fn is_plain(mode: TextMode, c: char) -> bool
    ensures { result ≡ is_plain mode c }
{
    match mode {
        TextMode::Data => !(c == '<' || c == '&'),
        TextMode::Foreign => !(c == '<' || c == '&'),
        TextMode::Rcdata => !(c == '<' || c == '&' || c == '\0'),
        TextMode::Rawtext | TextMode::Script => !(c == '<' || c == '\0'),
        TextMode::Plaintext => c != '\0',
    }
}

impl Input {
    /// The code point at a place of the rest.
    pub(crate) fn peek(&self, at: usize) -> Peek
        ensures { Peeks self.now at result }
    {
        match self.queue.unread().get(at) {
            Some(c) => Peek::Is(Some(*c)),
            None if self.finished => Peek::Is(None),
            None => Peek::Wait,
        }
    }

    /// Takes the first code point.
    pub(crate) fn take(&mut self) -> char
        requires { 0 < length self.old.queue.items }
        ensures items { self.old.queue.items ≡ result ∷ self.new.queue.items }
        ensures finished { self.new.finished ≡ self.old.finished }
    {
        let c = self.queue.unread()[0];
        self.queue.skip(1);
        c
    }

    /// The length of the longest front of the rest that is plain text in each state and tells no error: it ends before U+0000, `<` or `&`.
    #[inline(always)]
    pub(crate) fn clean_len(&self) -> usize
        ensures fit { result ≤ length self.now.queue.items }
        ensures plain { (mode : TextMode) → AllPass (is_plain mode) (take result self.now.queue.items) }
        ensures ended { EndsAt (is_without 60 38) self.now.queue.items result }
    {
        front_without('<', '&', self.queue.unread())
    }

    /// Whether `<` comes next.
    #[inline(always)]
    pub(crate) fn is_at_less_than(&self) -> bool {
        self.queue.unread().get(0) == Some(&'<')
    }

    /// Takes the first code point where it is plain text.
    #[tactic(auto, unfolding(crate::specs::Runs::plain_front))]
    pub(crate) fn take_plain(&mut self, mode: TextMode) -> Option<char>
        ensures { MatchOption result ((plain_front mode self.old.queue.items ≡ []) × (self.new ≡ self.old)) (λ c. (is_plain mode c ≡ true) × (self.old.queue.items ≡ c ∷ self.new.queue.items) × (self.new.finished ≡ self.old.finished)) }
    {
        match self.queue.unread().get(0) {
            None => None,
            Some(c) => {
                if is_plain(mode, *c) {
                    Some(self.take())
                } else {
                    None
                }
            }
        }
    }

    /// Leaves out so many code points.
    pub(crate) fn skip(&mut self, count: usize)
        requires { count ≤ length self.old.queue.items }
        ensures items { self.new.queue.items ≡ drop count self.old.queue.items }
        ensures finished { self.new.finished ≡ self.old.finished }
    {
        self.queue.skip(count);
    }

    /// Adds a piece at the end.
    pub(crate) fn feed(&mut self, text: &[char]) -> Result<(), AllocError>
        ensures items { OnOk result (self.new.queue.items ≡ self.old.queue.items ++ text.now) }
        ensures room { length self.new.queue.items ≤ length self.old.queue.items + length text.now }
        ensures finished { self.new.finished ≡ self.old.finished }
    {
        self.queue.extend(text)
    }
}
