// Steps in comments.
ghost use Rattle.std.specs.Prelude.{◌≡◌, ◌≤◌, ◌+◌, ◌^◌, ◌<◌, length, IfOk, OnErr, OnOk};
ghost use Rattle.html_tokens.specs.Fed.{Steps, Tells, IsComment, EndsComment};
ghost use Rattle.html_tokens.specs.Bounds.{IsBounded, IsWithin};

use super::{Machine, Progress, State, token};
use crate::comment::Reading;
use crate::faults::Faults;
use crate::input::Peek;
use crate::token::{Region, TokenKind};
use std::alloc::AllocError;
use std::mem;

impl<'a> Machine<'a> {
    /// Reads on in a comment.
    pub(super) fn comment_step(&mut self, faults: &mut Faults) -> Result<Progress, AllocError>
        requires state { IsComment self.old.state }
        requires room { self.old.place + length self.old.input.queue.items < 2 ^ 64 }
        ensures steps { IfOk result (λ progress. Steps self.old progress self.new) }
        ensures room { OnErr result (self.new.place + length self.new.input.queue.items ≤ self.old.place + length self.old.input.queue.items) }
        ensures finished { OnErr result (self.new.input.finished ≡ self.old.input.finished) }
        ensures bounded { IsBounded self.old faults.old → OnOk result (IsBounded self.new faults.new) }
        ensures within { IsBounded self.old faults.old → OnErr result (IsWithin self.new.place faults.new) }
        ensures tells { IfOk result (λ progress. Tells self.old progress faults.old faults.new) }
    {
        let State::Comment(draft) = &mut self.state else {
            return Ok(Progress::Wait);
        };
        let Some(nests) = draft.kind.nests(&self.input) else {
            return Ok(Progress::Wait);
        };
        let Peek::Is(first) = self.input.peek(0) else {
            return Ok(Progress::Wait);
        };
        match draft.read(&mut self.input)? {
            Reading::Wait => Ok(Progress::Wait),
            Reading::More => {
                faults.comment_char(nests, first, self.place);
                self.place += 1;
                Ok(Progress::More)
            }
            Reading::Closed(len) => {
                faults.comment_end(draft.kind, &self.input, len, self.place);
                Ok(self.end_comment(len))
            }
        }
    }

    /// The comment ends, before what closes it.
    fn end_comment(&mut self, len: usize) -> Progress
        requires fit { len ≤ length self.old.input.queue.items }
        requires state { IsComment self.old.state }
        requires room { self.old.place + length self.old.input.queue.items < 2 ^ 64 }
        ensures { EndsComment self.old len result self.new }
    {
        match mem::replace(&mut self.state, State::Text(Region::Plain)) {
            State::Comment(draft) => {
                self.pass(len);
                Progress::Given(token(TokenKind::Comment(draft.data), draft.start, self.place))
            }
            _ => Progress::Wait,
        }
    }
}
