// What comments tell.
ghost use Rattle.html_tokens.specs.Bounds.{Told};
ghost use Rattle.html_tokens.specs.Errors.{Opens};
ghost use Rattle.html_tokens.specs.Input.{Decided};
ghost use Rattle.html_tokens.specs.Inside.{closing_errors, fault_when, is_closed, kind_errors, null_errors};
ghost use Rattle.std.specs.Prelude.{◌≡◌, ◌++◌, ◌+◌, ◌<◌, ◌≤◌, ◌^◌, Bool, length, true};

use super::Faults;
use crate::comment::CommentKind;
use crate::fault_name::FaultName;
use crate::input::{Input, Peek};

/// Whether what closes a comment, of this length, is `-->`.
fn is_closed(input: &Input, len: usize) -> bool
    requires fit { len ≤ length input.now.queue.items }
    ensures { Decided input.now (is_closed len) result }
{
    if len != 3 {
        return false;
    }
    match input.peek(2) {
        Peek::Is(Some('>')) => true,
        Peek::Is(_) | Peek::Wait => false,
    }
}

impl Faults {
    /// What a code point of a comment tells, and whether a `<!--` begins with it that is an error.
    #[inline(always)]
    pub(crate) fn comment_char(&mut self, nests: bool, found: Option<char>, place: u64)
        requires room { nests ≡ true → place + 4 < 2 ^ 64 }
        ensures told { Told 2 0 self.old self.new }
        ensures opens { Opens (fault_when nests FaultName.NestedComment (place + 4) ++ null_errors found place) self.old self.new }
    {
        self.nested(nests, place);
        self.null_at(found, place);
    }

    /// What a U+0000 tells, where there is one.
    fn null_at(&mut self, found: Option<char>, place: u64)
        ensures told { Told 1 0 self.old self.new }
        ensures opens { Opens (null_errors found place) self.old self.new }
    {
        if let Some(c) = found {
            self.null(c, place);
        }
    }

    /// What a `<!--` inside a comment tells.
    fn nested(&mut self, nests: bool, place: u64)
        requires room { nests ≡ true → place + 4 < 2 ^ 64 }
        ensures told { Told 1 0 self.old self.new }
        ensures opens { Opens (fault_when nests FaultName.NestedComment (place + 4)) self.old self.new }
    {
        if nests {
            self.tell(FaultName::NestedComment, place + 4);
        }
    }

    /// What the end of a comment tells, where so many code points close it.
    pub(crate) fn comment_end(&mut self, kind: CommentKind, input: &Input, len: usize, place: u64)
        requires room { place + len < 2 ^ 64 }
        requires fit { len ≤ length input.now.queue.items }
        ensures told { Told 1 0 self.old self.new }
        ensures opens { (closed : Bool) → Decided input.now (is_closed len) closed → Opens (kind_errors kind closed len place) self.old self.new }
    {
        match kind {
            CommentKind::Bogus => {}
            CommentKind::Declared => self.declared_close(input, len, place),
        }
    }

    /// What closes a comment that `<!--` began.
    fn declared_close(&mut self, input: &Input, len: usize, place: u64)
        requires room { place + len < 2 ^ 64 }
        requires fit { len ≤ length input.now.queue.items }
        ensures told { Told 1 0 self.old self.new }
        ensures opens { (closed : Bool) → Decided input.now (is_closed len) closed → Opens (closing_errors closed len place) self.old self.new }
    {
        let closed = is_closed(input, len);
        self.declared_end(closed, len, place);
    }

    /// What closes a comment is `-->`, or `--!>`, or the end.
    fn declared_end(&mut self, closed: bool, len: usize, place: u64)
        requires room { place + len < 2 ^ 64 }
        ensures told { Told 1 0 self.old self.new }
        ensures opens { Opens (closing_errors closed len place) self.old self.new }
    {
        let end = place + len as u64;
        if len == 4 {
            self.tell(FaultName::IncorrectlyClosedComment, end.saturating_sub(1));
        } else if !closed {
            self.tell(FaultName::EofInComment, end);
        }
    }
}
