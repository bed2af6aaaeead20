// The parse errors that a doctype tells (HTML 13.2.5.53 to 13.2.5.68).
ghost use Rattle.std.specs.Prelude.{◌≡◌, ℕ, ◌≤◌, ◌+◌, true, cond, length, IfSome, None};
ghost use Rattle.html_tokens.specs.Cut.{is_space};
ghost use Rattle.html_tokens.specs.Bounds.{Told};
ghost use Rattle.html_tokens.specs.Errors.{Opens};
ghost use Rattle.html_tokens.specs.Inside.{doctype_char_error, doctype_close_error, doctype_end_error, doctype_front_errors, fault_if, id_error};

use crate::doctype::DoctypePart;
use crate::fault_name::FaultName;
use crate::faults::Faults;
use crate::tag::is_space;

/// What a code point tells where an id may begin: that no white space stands before its quote, or that it is no quote.
fn id_fault(c: char, spaced: bool, unspaced: FaultName, unquoted: FaultName) -> Option<FaultName>
    ensures name { result ≡ id_error c spaced unspaced unquoted }
{
    match c {
        '"' | '\'' if spaced => None,
        '"' | '\'' => Some(unspaced),
        _ => Some(unquoted),
    }
}

/// What a code point other than white space and `>` tells in a part of a doctype, where no keyword begins.
fn part_fault(part: DoctypePart, c: char, spaced: bool) -> Option<FaultName>
    ensures name { result ≡ doctype_char_error part c spaced }
{
    match part {
        DoctypePart::BeforeName if spaced => None,
        DoctypePart::BeforeName => Some(FaultName::MissingWhitespaceBeforeDoctypeName),
        DoctypePart::AfterName => Some(FaultName::InvalidCharacterSequenceAfterDoctypeName),
        DoctypePart::BeforePublic => id_fault(
            c,
            spaced,
            FaultName::MissingWhitespaceAfterDoctypePublicKeyword,
            FaultName::MissingQuoteBeforeDoctypePublicIdentifier,
        ),
        DoctypePart::AfterPublic => id_fault(
            c,
            spaced,
            FaultName::MissingWhitespaceBetweenDoctypePublicAndSystemIdentifiers,
            FaultName::MissingQuoteBeforeDoctypeSystemIdentifier,
        ),
        DoctypePart::BeforeSystem => id_fault(
            c,
            spaced,
            FaultName::MissingWhitespaceAfterDoctypeSystemKeyword,
            FaultName::MissingQuoteBeforeDoctypeSystemIdentifier,
        ),
        DoctypePart::AfterSystem => Some(
            FaultName::UnexpectedCharacterAfterDoctypeSystemIdentifier,
        ),
        DoctypePart::Name
        | DoctypePart::Public(_)
        | DoctypePart::System(_)
        | DoctypePart::BadRest(_) => None,
    }
}

/// What a code point other than `>` tells in a part of a doctype, where no keyword begins.
fn char_fault(part: DoctypePart, c: char, spaced: bool) -> Option<FaultName>
    ensures name { result ≡ cond (is_space c) None (doctype_char_error part c spaced) }
{
    if is_space(c) {
        return None;
    }
    part_fault(part, c, spaced)
}

/// What a `>` tells that closes a doctype in one of its parts.
fn close_fault(part: DoctypePart) -> Option<FaultName>
    ensures name { result ≡ doctype_close_error part }
{
    match part {
        DoctypePart::BeforeName => Some(FaultName::MissingDoctypeName),
        DoctypePart::BeforePublic => Some(FaultName::MissingDoctypePublicIdentifier),
        DoctypePart::Public(_) => Some(FaultName::AbruptDoctypePublicIdentifier),
        DoctypePart::BeforeSystem => Some(FaultName::MissingDoctypeSystemIdentifier),
        DoctypePart::System(_) => Some(FaultName::AbruptDoctypeSystemIdentifier),
        DoctypePart::Name
        | DoctypePart::AfterName
        | DoctypePart::AfterPublic
        | DoctypePart::AfterSystem
        | DoctypePart::BadRest(_) => None,
    }
}

impl Faults {
    /// What the front of the rest tells in a part of a doctype, where no keyword begins; `spaced` tells that white space
    /// stands before it.
    pub(crate) fn doctype(
        &mut self,
        part: DoctypePart,
        spaced: bool,
        found: Option<char>,
        place: u64,
    )
        ensures told { Told 2 0 self.old self.new }
        ensures opens { Opens (doctype_front_errors part spaced found place) self.old self.new }
    {
        match found {
            None => self.doctype_end(part, place),
            Some('>') => self.tell_named(close_fault(part), place),
            Some(c) => {
                self.tell_named(char_fault(part, c, spaced), place);
                self.null(c, place);
            }
        }
    }

    /// What the end tells in a part of a doctype.
    fn doctype_end(&mut self, part: DoctypePart, place: u64)
        ensures told { Told 1 0 self.old self.new }
        ensures opens { Opens (fault_if (doctype_end_error part) place) self.old self.new }
    {
        match part {
            DoctypePart::BadRest(_) => {}
            _ => self.tell(FaultName::EofInDoctype, place),
        }
    }

    fn tell_named(&mut self, name: Option<FaultName>, place: u64)
        ensures told { Told 1 0 self.old self.new }
        ensures opens { Opens (fault_if name place) self.old self.new }
    {
        if let Some(name) = name {
            self.tell(name, place);
        }
    }
}
