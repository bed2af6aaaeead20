// Steps in doctypes.
ghost use Rattle.std.specs.Prelude.{◌≡◌, ◌≤◌, ◌+◌, ◌^◌, ◌<◌, length, IfOk, OnErr, OnOk};
ghost use Rattle.html_tokens.specs.Fed.{Steps, Tells, IsDoctype, EndsDoctype};
ghost use Rattle.html_tokens.specs.Bounds.{IsBounded, IsWithin};

use super::{Machine, Progress, State, token};
use crate::doctype::DoctypeReading;
use crate::faults::Faults;
use crate::input::Peek;
use crate::token::{Region, TokenKind};
use std::alloc::AllocError;
use std::mem;

impl<'a> Machine<'a> {
    /// Reads on in a doctype.
    pub(super) fn doctype_step(&mut self, faults: &mut Faults) -> Result<Progress, AllocError>
        requires state { IsDoctype self.old.state }
        requires room { self.old.place + length self.old.input.queue.items < 2 ^ 64 }
        ensures steps { IfOk result (λ progress. Steps self.old progress self.new) }
        ensures room { OnErr result (self.new.place + length self.new.input.queue.items ≤ self.old.place + length self.old.input.queue.items) }
        ensures finished { OnErr result (self.new.input.finished ≡ self.old.input.finished) }
        ensures bounded { IsBounded self.old faults.old → OnOk result (IsBounded self.new faults.new) }
        ensures within { IsBounded self.old faults.old → OnErr result (IsWithin self.new.place faults.new) }
        ensures tells { IfOk result (λ progress. Tells self.old progress faults.old faults.new) }
    {
        let State::Doctype(draft) = &mut self.state else {
            return Ok(Progress::Wait);
        };
        let Peek::Is(first) = self.input.peek(0) else {
            return Ok(Progress::Wait);
        };
        let (part, spaced) = (draft.part, draft.spaced);
        match draft.read(&self.input)? {
            DoctypeReading::Wait => Ok(Progress::Wait),
            DoctypeReading::Keyword(len) => {
                self.pass(len);
                Ok(Progress::More)
            }
            DoctypeReading::More => {
                faults.doctype(part, spaced, first, self.place);
                self.pass(1);
                Ok(Progress::More)
            }
            DoctypeReading::Closed(force_quirks, len) => {
                faults.doctype(part, spaced, first, self.place);
                Ok(self.end_doctype(force_quirks, len))
            }
        }
    }

    /// The doctype ends, before what closes it.
    fn end_doctype(&mut self, force_quirks: bool, len: usize) -> Progress
        requires fit { len ≤ length self.old.input.queue.items }
        requires state { IsDoctype self.old.state }
        requires room { self.old.place + length self.old.input.queue.items < 2 ^ 64 }
        ensures { EndsDoctype self.old force_quirks len result self.new }
    {
        match mem::replace(&mut self.state, State::Text(Region::Plain)) {
            State::Doctype(draft) => {
                self.pass(len);
                let kind = TokenKind::Doctype {
                    name: draft.name,
                    public: draft.public,
                    system: draft.system,
                    force_quirks,
                };
                Progress::Given(token(kind, draft.start, self.place))
            }
            _ => Progress::Wait,
        }
    }
}
