//! Numbers of code points, in hexadecimal digits.

ghost use Rattle.std.specs.Prelude.{◌≡◌, ◌<◌, ◌≤◌};
ghost use Rattle.html_device.specs.Codes.{code_digits, hex_digit, leading_zeros};

/// The number of a code point in six hexadecimal digits.
pub(crate) fn digits_of(c: char) -> [u8; 6]
    ensures { result ≡ code_digits c }
{
    let code = c as u32;
    [
        hexadecimal(code / 0x100000 % 16),
        hexadecimal(code / 0x10000 % 16),
        hexadecimal(code / 0x1000 % 16),
        hexadecimal(code / 0x100 % 16),
        hexadecimal(code / 0x10 % 16),
        hexadecimal(code % 16),
    ]
}

/// How many of the six digits are left out: those that lead and are zero, where four are left.
pub(crate) fn left_out(c: char) -> usize
    ensures value { result ≡ leading_zeros c }
    ensures few { result ≤ 2 }
{
    let code = c as u32;
    if code < 0x10000 {
        2
    } else if code < 0x100000 {
        1
    } else {
        0
    }
}

/// A hexadecimal digit.
fn hexadecimal(digit: u32) -> u8
    requires { digit < 16 }
    ensures { result ≡ hex_digit digit }
{
    if digit < 10 {
        b'0' + digit as u8
    } else {
        b'A' + (digit as u8 - 10)
    }
}
