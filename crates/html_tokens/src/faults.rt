// The parse errors that are told, and what they rest on.
ghost use Rattle.std.specs.Prelude.{◌≡◌, ◌+◌, ◌<◌, ◌≤◌, ◌^◌, ◌-◌, ◌&&◌, ℕ, [], ◌∷◌, true, false, not, length, option_to_list, slice_get, IfSome, MatchOption, OnOk, Some};
ghost use Rattle.html_tokens.specs.Order.{IsAdded};
ghost use Rattle.html_tokens.specs.Bounds.{Told};
ghost use Rattle.html_tokens.specs.Errors.{bogus_error, is_cdata, IsQuiet, literal_error, Opens, opening_errors, region_end_errors};
ghost use Rattle.html_tokens.specs.Cut.{is};
ghost use Rattle.html_tokens.specs.Inside.{fault, null_errors};
ghost use Rattle.html_tokens.specs.InsideReferences.{ref_fault_name};
ghost use Rattle.html_tokens.specs.Input.{Decided, IsShort};
ghost use Rattle.html_tokens.specs.Tokens.{opened_len, opener};

use crate::fault_list::FaultList;
use crate::fault_name::FaultName;
use crate::input::{Input, Peek};
use crate::marks::{is_at, stands};
use crate::token::{Opener, Region};
use html_charref::RefFault;
use std::alloc::{AllocError, Global};

mod comments;
mod references;
mod tags;

/// A parse error: its name, and the place of the text that it is told of.
#[derive(Clone, Copy, Debug, PartialEq, Eq)]
pub struct Fault {
    pub name: FaultName,
    pub place: u64,
}

/// The parse errors told so far, and how many attribute names were compared.
#[derive(Drop)]
pub struct Faults {
    pub list: FaultList,
    pub lost: bool,
    pub compared: u128,
}

/// The name of what is wrong with a number.
fn number_name(fault: RefFault) -> FaultName
    ensures name { result ≡ ref_fault_name fault }
{
    match fault {
        RefFault::Null => FaultName::NullCharacterReference,
        RefFault::OutsideRange => FaultName::CharacterReferenceOutsideUnicodeRange,
        RefFault::Surrogate => FaultName::SurrogateCharacterReference,
        RefFault::Noncharacter => FaultName::NoncharacterCharacterReference,
        RefFault::Control => FaultName::ControlCharacterReference,
    }
}

/// Whether no `;` ends this many code points at the front of the rest.
pub(crate) fn lacks_semicolon(input: &Input, len: usize) -> bool
    requires some { 0 < len }
    requires fit { len ≤ length input.now.queue.items }
    ensures { Decided input.now (λ rest. not (is 59 (slice_get rest (len - 1)))) result }
{
    input.queue.unread()[len - 1] != ';'
}

/// Whether `[CDATA[` stands after `<!`.
fn is_cdata(input: &Input) -> Option<bool>
    ensures { MatchOption result (IsShort input.now 8) (λ found. Decided input.now is_cdata found) }
{
    stands(input, &['[', 'C', 'D', 'A', 'T', 'A', '['], 2)
}

/// What a `<` in data tells, by what it begins; nothing where more input is wanted.
pub(crate) fn opening_fault(input: &Input, found: Opener, place: u64) -> Option<Option<Fault>>
    requires found { Decided input.now opener found }
    requires some { 0 < opened_len found }
    requires fit { opened_len found ≤ length input.now.queue.items }
    requires room { place + length input.now.queue.items < 2 ^ 64 }
    ensures told { MatchOption result (IsShort input.now 8) (λ fault. Decided input.now (opening_errors found place) (option_to_list fault)) }
{
    Some(match found {
        Opener::Literal => Some(literal_fault(input, place)?),
        Opener::Empty => Some(Fault {
            name: FaultName::MissingEndTagName,
            place: place.saturating_add(2),
        }),
        Opener::Bogus(_) => Some(bogus_fault(input, place)?),
        Opener::ShortComment(len) => Some(Fault {
            name: FaultName::AbruptClosingOfEmptyComment,
            place: place.saturating_add(len as u64).saturating_sub(1),
        }),
        Opener::StartTag | Opener::EndTag | Opener::Comment | Opener::Doctype => None,
    })
}

/// What a `<` or `</` tells that is text.
fn literal_fault(input: &Input, place: u64) -> Option<Fault>
    requires some { 0 < length input.now.queue.items }
    requires room { place + length input.now.queue.items < 2 ^ 64 }
    ensures told { MatchOption result (IsShort input.now 8) (λ f. Decided input.now (λ rest. literal_error (slice_get rest 1) place) f) }
{
    let next = place.saturating_add(1);
    match input.peek(1) {
        Peek::Wait => None,
        Peek::Is(None) => Some(Fault {
            name: FaultName::EofBeforeTagName,
            place: next,
        }),
        Peek::Is(Some('/')) => Some(Fault {
            name: FaultName::EofBeforeTagName,
            place: next.saturating_add(1),
        }),
        Peek::Is(Some(_)) => Some(Fault {
            name: FaultName::InvalidFirstCharacterOfTagName,
            place: next,
        }),
    }
}

/// What `<?`, `</` or `<!` tells that begins a bogus comment; nothing where more input is wanted.
fn bogus_fault(input: &Input, place: u64) -> Option<Fault>
    requires two { 1 < length input.now.queue.items }
    requires room { place + length input.now.queue.items < 2 ^ 64 }
    ensures told { MatchOption result (IsShort input.now 8) (λ f. Decided input.now (bogus_error place) f) }
{
    let next = place.saturating_add(1);
    if is_at(input, 1, '?')? {
        return Some(Fault {
            name: FaultName::UnexpectedQuestionMarkInsteadOfTagName,
            place: next,
        });
    }
    let place = next.saturating_add(1);
    if is_at(input, 1, '/')? {
        return Some(Fault {
            name: FaultName::InvalidFirstCharacterOfTagName,
            place,
        });
    }
    let name = if is_cdata(input)? {
        FaultName::CdataInHtmlContent
    } else {
        FaultName::IncorrectlyOpenedComment
    };
    Some(Fault { name, place })
}

impl Faults {
    pub(crate) fn new(alloc: Global) -> Faults
        ensures list { result.list ≡ [] }
        ensures compared { result.compared ≡ 0 }
        ensures kept { result.lost ≡ false }
    {
        Faults {
            list: FaultList::new(alloc),
            lost: false,
            compared: 0,
        }
    }

    /// Whether an error could not be kept for want of memory.
    pub(crate) fn is_lost(&self) -> bool
        ensures { result ≡ self.now.lost }
    {
        self.lost
    }

    /// Refused where an error could not be kept for want of memory.
    pub(crate) fn check(&self) -> Result<(), AllocError>
        ensures { OnOk result (self.now.lost ≡ false) }
    {
        if self.lost { Err(AllocError) } else { Ok(()) }
    }

    /// Adds an error, or notes that memory was refused.
    pub(crate) fn tell(&mut self, name: FaultName, place: u64)
        ensures told { Told 1 0 self.old self.new }
        ensures opens { Opens (fault name place ∷ []) self.old self.new }
        ensures added { self.new.lost ≡ false → IsAdded self.old.list (record { name = name; place = place }) self.new.list }
        ensures compared { self.new.compared ≡ self.old.compared }
    {
        match self.list.add(Fault { name, place }) {
            Ok(()) => {}
            Err(_) => self.lost = true,
        }
    }

    pub(crate) fn tell_some(&mut self, fault: Option<Fault>)
        ensures told { Told 1 0 self.old self.new }
        ensures opens { Opens (option_to_list fault) self.old self.new }
    {
        if let Some(Fault { name, place }) = fault {
            self.tell(name, place);
        }
    }

    /// What a U+0000 tells.
    pub(crate) fn null(&mut self, c: char, place: u64)
        ensures told { Told 1 0 self.old self.new }
        ensures opens { Opens (null_errors (Some c) place) self.old self.new }
    {
        if c == '\0' {
            self.tell(FaultName::UnexpectedNullCharacter, place);
        }
    }

    /// What a code point of text tells.
    pub(crate) fn text_char(&mut self, c: char, place: u64)
        ensures told { Told 2 0 self.old self.new }
        ensures opens { Opens (null_errors (Some c) place) self.old self.new }
    {
        self.null(c, place);
    }

    /// What the end tells in a section.
    pub(crate) fn section_end(&mut self, place: u64)
        ensures told { Told 1 0 self.old self.new }
        ensures opens { Opens (fault FaultName.EofInCdata place ∷ []) self.old self.new }
    {
        self.tell(FaultName::EofInCdata, place);
    }

    /// What the end tells in text.
    pub(crate) fn text_end(&mut self, region: Region, place: u64)
        ensures told { Told 1 0 self.old self.new }
        ensures opens { Opens (region_end_errors region place) self.old self.new }
    {
        match region {
            Region::Plain => {}
            Region::Escaped | Region::Double => {
                self.tell(FaultName::EofInScriptHtmlCommentLikeText, place);
            }
        }
    }
}
