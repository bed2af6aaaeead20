//! Places as people count them.

ghost use Rattle.std.specs.Prelude.{◌≡◌, ◌≤◌, length, min};
ghost use Rattle.html_input.specs.Lines.{StandsAt};
ghost use Rattle.zilqumet_c.specs.Places.{ArePositions, IsPosition};

use html_parser::Lines;

/// Where a place stands: how many bytes are before it, its line and its column in code points, both from 1.
#[repr(C)]
#[derive(Clone, Copy)]
pub struct ZqPosition {
    pub offset: u64,
    pub line: u64,
    pub column: u64,
}

/// Tells where places of an input stand, as many as there are and fit, and answers how many. It goes through the bytes once where the places never fall.
#[unsafe(no_mangle)]
pub extern "C" fn proved_positions(
    bytes: &[u8],
    places: &[u64],
    positions: &mut [ZqPosition],
) -> usize
    ensures count { result ≡ min (length places.now) (length positions.new) }
    ensures positions { ArePositions bytes.now places.now result positions.new }
{
    let mut lines = Lines::of(bytes);
    let mut count = 0;
    'places: while count < places.len() && count < positions.len() {
        positions[count] = position(&mut lines, places[count]);
        count += 1;
    }
    count
}

/// Where a place stands.
fn position(lines: &mut Lines<'_>, place: u64) -> ZqPosition
    ensures position { IsPosition lines.old.bytes.now place result }
    ensures same { lines.new.bytes.now ≡ lines.old.bytes.now }
{
    let at = lines.at(place);
    ZqPosition {
        offset: at.offset as u64,
        line: at.line,
        column: at.column,
    }
}
