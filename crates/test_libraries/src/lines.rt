// Places of a text, and where they stand in its bytes.

use crate::same::same;
use html_input::{Lines, Position};

/// A byte order mark, both ends of lines, a character of two bytes, and the front of one of three.
const BYTES: &[u8] = b"\xEF\xBB\xBFa\r\nb\xC3\xA9\n\xE2\x82c";

/// Where places stand: behind the last one, and before it again.
const WANTED: &[(u64, usize, u64, u64)] = &[
    (0, 3, 1, 1),
    (1, 4, 1, 2),
    (2, 6, 2, 1),
    (3, 7, 2, 2),
    (4, 9, 2, 3),
    (5, 10, 3, 1),
    (6, 12, 3, 2),
    (7, 13, 3, 3),
    (100, 13, 3, 3),
    (2, 6, 2, 1),
];

#[test]
fn tells_where_places_stand(rt: HostRuntime) {
    let mut lines = Lines::of(BYTES);
    for (place, offset, line, column) in WANTED {
        let wanted = Position {
            offset: *offset,
            line: *line,
            column: *column,
        };
        same(&rt, lines.at(*place), wanted);
    }
}
