// What references tell.
ghost use Rattle.html_tokens.specs.Bounds.{Told};
ghost use Rattle.html_tokens.specs.Errors.{Opens};
ghost use Rattle.html_tokens.specs.Inside.{fault, fault_if, fault_when};
ghost use Rattle.html_tokens.specs.InsideReferences.{ampersand_told, found_told, number_end_errors, ref_fault_name};
ghost use Rattle.html_tokens.specs.InsideTags.{part_end_told};
ghost use Rattle.std.specs.Prelude.{◌∷◌, [], ◌++◌, ◌&&◌, nat_lt, option_map};

use super::{Faults, number_name};
use crate::fault_name::FaultName;
use crate::reference::ValueRef;
use crate::tag::Part;
use html_charref::{RefFault, numeric};

impl Faults {
    /// What a code point, or the end, tells after a `&` at a place and letters or digits.
    pub(crate) fn ampersand(&mut self, found: Option<char>, place: u64)
        ensures told { Told 1 0 self.old self.new }
        ensures opens { Opens (ampersand_told place found) self.old self.new }
    {
        self.unknown(found == Some(';'), place);
    }

    /// What a `&` at a place tells before letters and digits that begin no name, and that a `;` may close.
    pub(crate) fn unknown(&mut self, closed: bool, place: u64)
        ensures told { Told 1 0 self.old self.new }
        ensures opens { Opens (fault_when closed FaultName.UnknownNamedCharacterReference place) self.old self.new }
    {
        self.tell_if(closed, FaultName::UnknownNamedCharacterReference, place);
    }

    /// What a `&` tells that begins no reference and after which a `#` stands.
    pub(crate) fn no_digits(&mut self, place: u64)
        ensures told { Told 1 0 self.old self.new }
        ensures opens { Opens (fault FaultName.AbsenceOfDigitsInNumericCharacterReference place ∷ []) self.old self.new }
    {
        self.tell(FaultName::AbsenceOfDigitsInNumericCharacterReference, place);
    }

    /// What a name of this length tells, which may lack its `;`.
    pub(crate) fn name(&mut self, len: usize, lacking: bool, place: u64)
        ensures told { Told 1 0 self.old self.new }
        ensures opens { Opens (fault_when (nat_lt 1 len && lacking) FaultName.MissingSemicolonAfterCharacterReference place) self.old self.new }
    {
        self.tell_if(
            1 < len && lacking,
            FaultName::MissingSemicolonAfterCharacterReference,
            place,
        );
    }

    /// What a number tells when it is whole.
    pub(crate) fn number(&mut self, value: u32, is_closed: bool, place: u64)
        ensures told { Told 2 0 self.old self.new }
        ensures opens { Opens (number_end_errors is_closed value place) self.old self.new }
    {
        self.tell_if(
            !is_closed,
            FaultName::MissingSemicolonAfterCharacterReference,
            place,
        );
        let (_, fault) = numeric(value);
        self.number_fault(fault, place);
    }

    /// What is wrong with a number.
    fn number_fault(&mut self, fault: Option<RefFault>, place: u64)
        ensures told { Told 1 0 self.old self.new }
        ensures opens { Opens (fault_if (option_map ref_fault_name fault) place) self.old self.new }
    {
        if let Some(fault) = fault {
            self.tell(number_name(fault), place);
        }
    }

    /// What a number tells that goes on no further.
    pub(super) fn number_before(&mut self, part: Part)
        ensures told { Told 2 0 self.old self.new }
        ensures opens { Opens (part_end_told part) self.old self.new }
    {
        match part {
            Part::Number(_, _, value, start) => self.number(value, false, start),
            Part::Name
            | Part::Attributes
            | Part::AttrName
            | Part::AfterName
            | Part::Value
            | Part::Inside(_)
            | Part::Ampersand(..) => {}
        }
    }

    /// What the front of the rest of a value tells, where a `&` stands: what was found to begin, which may lack its `;`.
    pub(crate) fn value_ref(&mut self, part: Part, found: ValueRef, lacking: bool, place: u64)
        ensures told { Told 3 0 self.old self.new }
        ensures opens { Opens (part_end_told part ++ found_told found lacking place) self.old self.new }
    {
        self.number_before(part);
        self.begun_ref(found, lacking, place);
    }

    /// What a `&` in a value tells by what it begins.
    fn begun_ref(&mut self, found: ValueRef, lacking: bool, place: u64)
        ensures told { Told 1 0 self.old self.new }
        ensures opens { Opens (found_told found lacking place) self.old self.new }
    {
        match found {
            ValueRef::Numeric(..) => {}
            ValueRef::Letters => {}
            ValueRef::Unknown => self.unknown(true, place),
            ValueRef::Literal => self.no_digits(place),
            ValueRef::Codes(len, _, _) => self.name(len, lacking, place),
        }
    }
}
