//! The parse errors of a page.

ghost use Rattle.std.specs.Prelude.{◌≡◌, ◌≤◌, ◌++◌, IfOk, OnOk, drop, length, map};
ghost use Rattle.html_parser.specs.Faults.{construction_fault, fault_list, front_below, places_of, rest_from, told_fault};

use crate::starts::Starts;
use html_tokens::{Fault, FaultName};
use std::alloc::{AllocError, Global};
use std::fmt;

/// What is wrong at a place.
#[derive(Clone, Copy, Debug, PartialEq, Eq)]
pub enum PageFaultName {
    /// An error of the tokenizer, by the standard's name.
    Tokenizer(FaultName),
    /// An error of tree construction, of which there is one kind and at most one a token.
    TreeConstruction,
}

/// A parse error: its name, and the place of the text that it is told of. One of tree construction is told of the place where its token
/// begins.
#[derive(Clone, Copy, Debug, PartialEq, Eq)]
pub struct PageFault {
    pub name: PageFaultName,
    pub place: u64,
}

impl fmt::Display for PageFaultName {
    fn fmt<W: fmt::Write>(&self, f: &mut fmt::Formatter<W>) -> fmt::Result {
        match self {
            PageFaultName::Tokenizer(name) => write!(f, "{name}"),
            PageFaultName::TreeConstruction => f.write_str("tree-construction"),
        }
    }
}

/// All errors in order of their places: those of the tokenizer, and one of tree construction for each of the tokens with these rising numbers.
/// At one place those of the tokenizer come first, in the order in which they arose.
pub(crate) fn merged(
    alloc: Global,
    told: &[Fault],
    numbers: &[u64],
    starts: &Starts,
) -> Result<Vec<PageFault>, AllocError>
    ensures list { IfOk result (λ v. v.items ≡ fault_list told.now (places_of starts.now numbers.now)) }
{
    let mut faults = Vec::new(alloc);
    let mut rest = numbers;
    'told: for fault in told {
        let count = push_before(&mut faults, rest, starts, fault.place)?;
        let (_, later) = rest.split_at(count);
        rest = later;
        faults.push(of_tokenizer(*fault))?;
    }
    push_all(&mut faults, rest, starts)?;
    Ok(faults)
}

/// An error of the tokenizer.
fn of_tokenizer(fault: Fault) -> PageFault
    ensures value { result ≡ told_fault fault }
{
    let Fault { name, place } = fault;
    PageFault {
        name: PageFaultName::Tokenizer(name),
        place,
    }
}

/// An error of tree construction.
fn of_construction(place: u64) -> PageFault
    ensures value { result ≡ construction_fault place }
{
    PageFault {
        name: PageFaultName::TreeConstruction,
        place,
    }
}

/// Adds an error for each token at the front that begins before a place, and answers how many.
fn push_before(
    faults: &mut Vec<PageFault>,
    numbers: &[u64],
    starts: &Starts,
    place: u64,
) -> Result<usize, AllocError>
    ensures count { IfOk result (λ k. k ≤ length numbers.now) }
    ensures added { OnOk result (faults.new.items ≡ faults.old.items ++ map construction_fault (front_below place (places_of starts.now numbers.now))) }
    ensures rest { IfOk result (λ k. places_of starts.now (drop k numbers.now) ≡ rest_from place (places_of starts.now numbers.now)) }
{
    let mut count = 0;
    'front: while count < numbers.len() {
        let start = starts.at(numbers[count]);
        if start >= place {
            return Ok(count);
        }
        faults.push(of_construction(start))?;
        count += 1;
    }
    Ok(count)
}

/// Adds an error for each token.
fn push_all(faults: &mut Vec<PageFault>, numbers: &[u64], starts: &Starts) -> Result<(), AllocError>
    ensures added { OnOk result (faults.new.items ≡ faults.old.items ++ map construction_fault (places_of starts.now numbers.now)) }
{
    'numbers: for number in numbers {
        faults.push(of_construction(starts.at(*number)))?;
    }
    Ok(())
}
