// Doctypes (HTML 13.2.5.53 to 13.2.5.68).
ghost use Rattle.std.specs.Prelude.{◌≡◌, ℕ, ◌≤◌, ◌+◌, ◌<◌, length, MatchOption, IfOk, Some, slice_get, cond, true, []};
ghost use Rattle.html_tokens.specs.Doctype.{spells_word, keyword_at, new_doctype, ReadsPart, EndsPart, ReadsDoctype, keyword_len, is_quote};
ghost use Rattle.html_tokens.specs.Input.{Decided, IsShort};
ghost use Rattle.html_tokens.specs.Inside.{MovesDoctype, MovesPart};

use crate::input::{Input, Peek};
use crate::marks::begins_word;
use crate::nulls::null_replaced;
use crate::optional::OptionalStr;
use crate::tag::{is_space, name_char};
use html_text::Str;
use std::alloc::{AllocError, Global};
use std::mem;

const PUBLIC: [char; 6] = ['p', 'u', 'b', 'l', 'i', 'c'];

const SYSTEM: [char; 6] = ['s', 'y', 's', 't', 'e', 'm'];

/// The part of a doctype that is being read; an id with its quote, and a bad rest with whether it sets force-quirks.
#[derive(Clone, Copy)]
pub enum DoctypePart {
    BeforeName,
    Name,
    AfterName,
    BeforePublic,
    Public(char),
    AfterPublic,
    BeforeSystem,
    System(char),
    AfterSystem,
    BadRest(bool),
}

/// What stands after the name.
#[derive(Clone, Copy)]
pub enum Keyword {
    Public,
    System,
    Other,
}

/// A doctype that is being read: where it began, what is known of it, so far the name or id that is being read, and
/// whether white space was read last.
#[derive(Drop)]
pub struct DoctypeDraft {
    pub alloc: Global,
    pub start: u64,
    pub name: OptionalStr,
    pub public: OptionalStr,
    pub system: OptionalStr,
    pub text: Str,
    pub spaced: bool,
    pub part: DoctypePart,
}

/// What a read comes to: one code point is passed, or a keyword of this length; or the doctype closes, has force-quirks
/// or not, and so many code points close it.
#[derive(Clone, Copy)]
pub enum DoctypeReading {
    More,
    Keyword(usize),
    Closed(bool, usize),
    Wait,
}

pub(crate) fn is_quote(c: char) -> bool
    ensures { result ≡ is_quote c }
{
    c == '"' || c == '\''
}

/// The keyword at the front of the rest; nothing where more input is wanted.
fn found_keyword(input: &Input) -> Option<Keyword>
    ensures { MatchOption result (IsShort input.now 8) (λ found. Decided input.now keyword_at found × (keyword_len found ≤ length input.now.queue.items)) }
{
    if begins_word(input, &PUBLIC, 0)? {
        return Some(Keyword::Public);
    }
    if begins_word(input, &SYSTEM, 0)? {
        return Some(Keyword::System);
    }
    Some(Keyword::Other)
}

impl DoctypeDraft {
    pub(crate) fn new(alloc: Global, start: u64) -> DoctypeDraft
        ensures { new_doctype result start }
    {
        DoctypeDraft {
            alloc,
            start,
            name: OptionalStr::none(),
            public: OptionalStr::none(),
            system: OptionalStr::none(),
            text: Str::new(alloc),
            spaced: false,
            part: DoctypePart::BeforeName,
        }
    }

    /// Reads on at the front of the rest, unless the doctype closes there.
    pub(crate) fn read(&mut self, input: &Input) -> Result<DoctypeReading, AllocError>
        ensures reads { IfOk result (λ reading. ReadsDoctype self.old input.now reading self.new) }
        ensures moves { IfOk result (λ reading. MovesDoctype self.old input.now reading self.new) }
    {
        let c = match input.peek(0) {
            Peek::Wait => return Ok(DoctypeReading::Wait),
            Peek::Is(None) => {
                let force_quirks = self.end()?;
                return Ok(DoctypeReading::Closed(force_quirks, 0));
            }
            Peek::Is(Some(c)) => c,
        };
        if let DoctypePart::AfterName = self.part {
            return Ok(self.read_after_name(c, input));
        }
        let closed = self.read_part(c)?;
        self.spaced = is_space(c);
        Ok(match closed {
            None => DoctypeReading::More,
            Some(force_quirks) => DoctypeReading::Closed(force_quirks, 1),
        })
    }

    /// The input ends in the doctype: whether it has force-quirks.
    fn end(&mut self) -> Result<bool, AllocError>
        ensures { IfOk result (λ force_quirks. EndsPart self.old force_quirks self.new) }
    {
        Ok(match self.part {
            DoctypePart::Name => {
                self.name = self.take_text()?;
                true
            }
            DoctypePart::Public(_) => {
                self.public = self.take_text()?;
                true
            }
            DoctypePart::System(_) => {
                self.system = self.take_text()?;
                true
            }
            DoctypePart::BadRest(force_quirks) => force_quirks,
            DoctypePart::BeforeName => true,
            DoctypePart::AfterName => true,
            DoctypePart::BeforePublic => true,
            DoctypePart::AfterPublic => true,
            DoctypePart::BeforeSystem => true,
            DoctypePart::AfterSystem => true,
        })
    }

    /// The name or id that was being read.
    fn take_text(&mut self) -> Result<OptionalStr, AllocError>
        ensures text { IfOk result (λ taken. taken ≡ Some self.old.text) }
        ensures rest { self.new ≡ record self.old { text = [] } }
    {
        let text = mem::replace(&mut self.text, Str::new(self.alloc));
        OptionalStr::some(self.alloc, text)
    }

    /// Reads a code point after the name, or a keyword.
    fn read_after_name(&mut self, c: char, input: &Input) -> DoctypeReading
        requires part { self.old.part ≡ DoctypePart.AfterName }
        requires first { Decided input.now (λ rest. slice_get rest 0) (Some c) }
        requires some { 0 < length input.now.queue.items }
        ensures reads { ReadsDoctype self.old input.now result self.new }
        ensures moves { MovesDoctype self.old input.now result self.new }
    {
        if is_space(c) {
            self.spaced = true;
            return DoctypeReading::More;
        }
        if c == '>' {
            return DoctypeReading::Closed(false, 1);
        }
        match found_keyword(input) {
            None => DoctypeReading::Wait,
            Some(Keyword::Public) => {
                self.spaced = false;
                self.part = DoctypePart::BeforePublic;
                DoctypeReading::Keyword(6)
            }
            Some(Keyword::System) => {
                self.spaced = false;
                self.part = DoctypePart::BeforeSystem;
                DoctypeReading::Keyword(6)
            }
            Some(Keyword::Other) => {
                self.spaced = false;
                self.part = DoctypePart::BadRest(true);
                DoctypeReading::More
            }
        }
    }

    /// Reads a code point; where the doctype closes there, whether it has force-quirks.
    fn read_part(&mut self, c: char) -> Result<Option<bool>, AllocError>
        requires { self.old.part ≡ DoctypePart.AfterName → ⊥ }
        ensures reads { IfOk result (λ closed. ReadsPart self.old c closed self.new) }
        ensures moves { IfOk result (λ closed. MovesPart self.old c closed self.new) }
    {
        match self.part {
            DoctypePart::BeforeName => self.read_before_name(c),
            DoctypePart::Name => self.read_name(c),
            DoctypePart::Public(quote) => self.read_public(quote, c),
            DoctypePart::System(quote) => self.read_system(quote, c),
            DoctypePart::AfterName => Ok(None),
            DoctypePart::BeforePublic => Ok(self.read_before_public(c)),
            DoctypePart::AfterPublic => Ok(self.read_after_public(c)),
            DoctypePart::BeforeSystem => Ok(self.read_before_system(c)),
            DoctypePart::AfterSystem => Ok(self.read_after_system(c)),
            DoctypePart::BadRest(force_quirks) => Ok(if c == '>' {
                Some(force_quirks)
            } else {
                None
            }),
        }
    }

    fn read_before_name(&mut self, c: char) -> Result<Option<bool>, AllocError>
        requires { self.old.part ≡ DoctypePart.BeforeName }
        ensures reads { IfOk result (λ closed. ReadsPart self.old c closed self.new) }
        ensures moves { IfOk result (λ closed. MovesPart self.old c closed self.new) }
    {
        if is_space(c) {
            return Ok(None);
        }
        if c == '>' {
            return Ok(Some(true));
        }
        self.text = Str::new(self.alloc);
        self.text.push(name_char(c))?;
        self.part = DoctypePart::Name;
        Ok(None)
    }

    fn read_name(&mut self, c: char) -> Result<Option<bool>, AllocError>
        requires { self.old.part ≡ DoctypePart.Name }
        ensures reads { IfOk result (λ closed. ReadsPart self.old c closed self.new) }
        ensures moves { IfOk result (λ closed. MovesPart self.old c closed self.new) }
    {
        if c == '>' {
            self.name = self.take_text()?;
            return Ok(Some(false));
        }
        if is_space(c) {
            self.name = self.take_text()?;
            self.part = DoctypePart::AfterName;
            return Ok(None);
        }
        self.text.push(name_char(c))?;
        Ok(None)
    }

    fn read_before_public(&mut self, c: char) -> Option<bool>
        requires { self.old.part ≡ DoctypePart.BeforePublic }
        ensures reads { ReadsPart self.old c result self.new }
        ensures moves { MovesPart self.old c result self.new }
    {
        if is_space(c) {
            return None;
        }
        if c == '>' {
            return Some(true);
        }
        self.begin_id(DoctypePart::Public(c), c);
        None
    }

    /// An id begins at its quote, or a bad rest at something else.
    fn begin_id(&mut self, id: DoctypePart, c: char)
        ensures { self.new ≡ record self.old { text = []; part = cond (is_quote c) id (DoctypePart.BadRest true) } }
    {
        self.text = Str::new(self.alloc);
        self.part = if is_quote(c) {
            id
        } else {
            DoctypePart::BadRest(true)
        };
    }

    fn read_public(&mut self, quote: char, c: char) -> Result<Option<bool>, AllocError>
        requires { self.old.part ≡ DoctypePart.Public quote }
        ensures reads { IfOk result (λ closed. ReadsPart self.old c closed self.new) }
        ensures moves { IfOk result (λ closed. MovesPart self.old c closed self.new) }
    {
        if c == quote {
            self.public = self.take_text()?;
            self.part = DoctypePart::AfterPublic;
            return Ok(None);
        }
        if c == '>' {
            self.public = self.take_text()?;
            return Ok(Some(true));
        }
        self.text.push(null_replaced(c))?;
        Ok(None)
    }

    fn read_after_public(&mut self, c: char) -> Option<bool>
        requires { self.old.part ≡ DoctypePart.AfterPublic }
        ensures reads { ReadsPart self.old c result self.new }
        ensures moves { MovesPart self.old c result self.new }
    {
        if is_space(c) {
            return None;
        }
        if c == '>' {
            return Some(false);
        }
        self.begin_id(DoctypePart::System(c), c);
        None
    }

    fn read_before_system(&mut self, c: char) -> Option<bool>
        requires { self.old.part ≡ DoctypePart.BeforeSystem }
        ensures reads { ReadsPart self.old c result self.new }
        ensures moves { MovesPart self.old c result self.new }
    {
        if is_space(c) {
            return None;
        }
        if c == '>' {
            return Some(true);
        }
        self.begin_id(DoctypePart::System(c), c);
        None
    }

    fn read_system(&mut self, quote: char, c: char) -> Result<Option<bool>, AllocError>
        requires { self.old.part ≡ DoctypePart.System quote }
        ensures reads { IfOk result (λ closed. ReadsPart self.old c closed self.new) }
        ensures moves { IfOk result (λ closed. MovesPart self.old c closed self.new) }
    {
        if c == quote {
            self.system = self.take_text()?;
            self.part = DoctypePart::AfterSystem;
            return Ok(None);
        }
        if c == '>' {
            self.system = self.take_text()?;
            return Ok(Some(true));
        }
        self.text.push(null_replaced(c))?;
        Ok(None)
    }

    fn read_after_system(&mut self, c: char) -> Option<bool>
        requires { self.old.part ≡ DoctypePart.AfterSystem }
        ensures reads { ReadsPart self.old c result self.new }
        ensures moves { MovesPart self.old c result self.new }
    {
        if is_space(c) {
            return None;
        }
        if c == '>' {
            return Some(false);
        }
        self.part = DoctypePart::BadRest(false);
        None
    }
}
