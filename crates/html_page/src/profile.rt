//! How a tree is written as text.

/// Which characters are escaped in the values of attributes: `&`, U+00A0 and `"` (`One`), or also `<` and `>` (`Two`).
#[derive(Clone, Copy, Debug, PartialEq, Eq)]
pub enum Profile {
    One,
    Two,
}
