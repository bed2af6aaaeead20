// Comments.
ghost use Rattle.std.specs.Prelude.{◌≡◌, ℕ, ◌≤◌, ◌+◌, length, true, MatchOption, IfOk, OnErr};
ghost use Rattle.html_tokens.specs.Copied.{copied_by, CopiesComment};
ghost use Rattle.html_tokens.specs.Cut.{comment_mark, greater_mark};
ghost use Rattle.html_tokens.specs.Draft.{Reads, mark_of};
ghost use Rattle.html_tokens.specs.Input.{Decided, IsShort, Marks};
ghost use Rattle.html_tokens.specs.Inside.{MovesComment, nests, nests_in};

use crate::copied::Copied;
use crate::input::{Input, Peek};
use crate::marks::declares;
use crate::nulls::null_replaced;
use html_text::Str;
use std::alloc::AllocError;

/// How a comment closes.
#[derive(Clone, Copy)]
pub enum CommentKind {
    Declared,
    Bogus,
}

/// A comment that is being read: where it began, and its data so far.
#[derive(Drop)]
pub struct CommentDraft {
    pub kind: CommentKind,
    pub start: u64,
    pub data: Str,
}

/// What a read of one code point comes to: it belongs to the data, or what closes the comment stands there.
#[derive(Clone, Copy)]
pub enum Reading {
    More,
    Closed(usize),
    Wait,
}

/// The length of what closes a comment at the front of the rest, where it does; nothing where more input is wanted.
fn comment_mark(input: &Input) -> Option<Option<usize>>
    ensures { MatchOption result (IsShort input.now 3) (λ mark. Marks input.now comment_mark mark) }
{
    match input.peek(0) {
        Peek::Is(Some('-')) => match input.peek(1) {
            Peek::Is(None) => Some(Some(1)),
            Peek::Is(Some('-')) => match input.peek(2) {
                Peek::Is(None) => Some(Some(2)),
                Peek::Is(Some('>')) => Some(Some(3)),
                Peek::Is(Some('!')) => match input.peek(3) {
                    Peek::Is(None) => Some(Some(3)),
                    Peek::Is(Some('>')) => Some(Some(4)),
                    Peek::Is(Some(_)) => Some(None),
                    Peek::Wait => None,
                },
                Peek::Is(Some(_)) => Some(None),
                Peek::Wait => None,
            },
            Peek::Is(Some(_)) => Some(None),
            Peek::Wait => None,
        },
        Peek::Is(_) => Some(None),
        Peek::Wait => None,
    }
}

fn greater_mark(input: &Input) -> Option<Option<usize>>
    ensures { MatchOption result (IsShort input.now 3) (λ mark. Marks input.now greater_mark mark) }
{
    match input.peek(0) {
        Peek::Is(Some('>')) => Some(Some(1)),
        Peek::Is(_) => Some(None),
        Peek::Wait => None,
    }
}

/// Whether a `<!--` stands at the front of the rest, and then another code point than `>`.
fn nests(input: &Input) -> Option<bool>
    ensures { MatchOption result (IsShort input.now 8) (λ found. Decided input.now nests found × (found ≡ true → 5 ≤ length input.now.queue.items)) }
{
    if !declares(input)? {
        return Some(false);
    }
    match input.peek(4) {
        Peek::Is(Some(c)) => Some(c != '>'),
        Peek::Is(None) => Some(false),
        Peek::Wait => None,
    }
}

impl CommentKind {
    /// Whether a `<!--` stands at the front of the rest that is an error in a comment of this kind.
    pub(crate) fn nests(self, input: &Input) -> Option<bool>
        ensures { MatchOption result (IsShort input.now 8) (λ found. Decided input.now (nests_in self) found × (found ≡ true → 5 ≤ length input.now.queue.items)) }
    {
        match self {
            CommentKind::Declared => nests(input),
            CommentKind::Bogus => Some(false),
        }
    }

    /// What a comment of this kind takes as it stands.
    fn copied(self) -> Copied
        ensures { result ≡ copied_by self }
    {
        match self {
            CommentKind::Declared => Copied::Comment,
            CommentKind::Bogus => Copied::Bogus,
        }
    }

    fn mark(self, input: &Input) -> Option<Option<usize>>
        ensures { MatchOption result (IsShort input.now 3) (λ mark. Marks input.now (mark_of self) mark) }
    {
        match self {
            CommentKind::Declared => comment_mark(input),
            CommentKind::Bogus => greater_mark(input),
        }
    }
}

impl CommentDraft {
    /// Copies the longest front of the rest that the comment takes as it stands, and answers its length.
    pub(crate) fn copy_front(&mut self, rest: &[char]) -> Result<usize, AllocError>
        ensures copies { IfOk result (λ n. CopiesComment self.old rest.now n self.new) }
    {
        self.kind.copied().copy(rest, &mut self.data)
    }

    /// Reads the next code point of the comment, unless it closes there.
    pub(crate) fn read(&mut self, input: &mut Input) -> Result<Reading, AllocError>
        ensures reads { IfOk result (λ reading. Reads self.old input.old reading self.new input.new) }
        ensures moves { IfOk result (λ reading. MovesComment self.old input.old reading self.new) }
        ensures room { OnErr result (length input.new.queue.items ≤ length input.old.queue.items) }
        ensures finished { OnErr result (input.new.finished ≡ input.old.finished) }
    {
        match input.peek(0) {
            Peek::Wait => return Ok(Reading::Wait),
            Peek::Is(None) => return Ok(Reading::Closed(0)),
            Peek::Is(Some(_)) => {}
        }
        match self.kind.mark(input) {
            None => Ok(Reading::Wait),
            Some(Some(len)) => Ok(Reading::Closed(len)),
            Some(None) => {
                self.data.push(null_replaced(input.take()))?;
                Ok(Reading::More)
            }
        }
    }
}
