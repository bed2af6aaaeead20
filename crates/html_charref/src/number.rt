//! Numeric character references.
ghost use Rattle.std.specs.Prelude.{◌≡◌, ◌+◌, ◌*◌, ◌<◌, ℕ, List, [], ◌∷◌, ◌++◌};

/// What the digits of a number count.
#[derive(Clone, Copy, PartialEq, Eq, Debug)]
pub enum Base {
    Decimal,
    Hex,
}

impl Base {
    ghost use Rattle.html_charref.specs.Number.{radix};

    /// Ten or sixteen.
    pub fn radix(self) -> u32
        ensures { result ≡ radix self }
    {
        match self {
            Base::Decimal => 10,
            Base::Hex => 16,
        }
    }
}

/// What is wrong with the number of a reference.
#[derive(Clone, Copy, PartialEq, Eq, Debug)]
pub enum RefFault {
    Null,
    OutsideRange,
    Surrogate,
    Noncharacter,
    Control,
}

// The first number past the code points.
const LIMIT: u32 = 0x11_0000;

// What stands for the numbers from 0x80 to 0x9F: those that have no replacement stand for themselves.
const REPLACED: [char; 32] = [
    '\u{20AC}', '\u{81}', '\u{201A}', '\u{192}', '\u{201E}', '\u{2026}', '\u{2020}', '\u{2021}',
    '\u{2C6}', '\u{2030}', '\u{160}', '\u{2039}', '\u{152}', '\u{8D}', '\u{17D}', '\u{8F}',
    '\u{90}', '\u{2018}', '\u{2019}', '\u{201C}', '\u{201D}', '\u{2022}', '\u{2013}', '\u{2014}',
    '\u{2DC}', '\u{2122}', '\u{161}', '\u{203A}', '\u{153}', '\u{9D}', '\u{17E}', '\u{178}',
];

ghost use Rattle.html_charref.specs.Number.{radix, capped, number, char_of, fault_of};

/// The number with one more digit behind, but no more than 0x110000, the first number past the code points.
pub fn add_digit(value: u32, digit: u8, base: Base) -> u32
    requires { digit < radix base }
    ensures value { result ≡ capped (value * radix base + digit) }
    ensures digits { (ds : List ℕ) → value ≡ capped (number base ds)
        → result ≡ capped (number base (ds ++ digit ∷ [])) }
{
    let sum = u64::from(value) * u64::from(base.radix()) + u64::from(digit);
    sum.min(u64::from(LIMIT)) as u32
}

/// The character that a number stands for, and what is wrong with it.
pub fn numeric(value: u32) -> (char, Option<RefFault>)
    ensures character { result.0 ≡ char_of value }
    ensures fault { result.1 ≡ fault_of value }
    ensures number { (n : ℕ) → value ≡ capped n → (result.0 ≡ char_of n) × (result.1 ≡ fault_of n) }
{
    (referred(value), fault(value))
}

fn referred(value: u32) -> char
    ensures { result ≡ char_of value }
{
    match value {
        0x80..=0x9F => REPLACED[(value - 0x80) as usize],
        0 => '\u{FFFD}',
        _ => char::from_u32(value).unwrap_or('\u{FFFD}'),
    }
}

fn fault(value: u32) -> Option<RefFault>
    ensures { result ≡ fault_of value }
{
    match value {
        0 => Some(RefFault::Null),
        0xD800..=0xDFFF => Some(RefFault::Surrogate),
        LIMIT.. => Some(RefFault::OutsideRange),
        _ if is_noncharacter(value) => Some(RefFault::Noncharacter),
        _ if is_faulty_control(value) => Some(RefFault::Control),
        _ => None,
    }
}

ghost use Rattle.html_charref.specs.Number.{is_noncharacter as noncharacter_test, is_faulty_control as control_test};

fn is_noncharacter(value: u32) -> bool
    ensures { result ≡ noncharacter_test value }
{
    0xFDD0 <= value && value <= 0xFDEF || 0xFFFE <= value % 0x1_0000
}

fn is_faulty_control(value: u32) -> bool
    ensures { result ≡ control_test value }
{
    value < 0x20 && value != 0x9 && value != 0xA && value != 0xC || 0x7F <= value && value <= 0x9F
}
