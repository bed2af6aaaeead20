// The key of a row, as the file has it.
ghost use Rattle.std.specs.Prelude.{◌≡◌, string_bytes};
ghost use Rattle.std.specs.Str.{chars};

use std::fmt;
use std::marker::Model;

/// A key, seen as the list of its code points.
#[derive(Drop)]
pub struct Key(String);

impl Model for Key {
    ghost use Rattle.std.specs.Prelude.{List, ℕ, string_bytes};
    ghost use Rattle.std.specs.Str.{chars};

    ghost Value = { List ℕ };

    ghost view = { λ s. chars (string_bytes s.0) };
}

impl Key {
    /// The key of this text, which takes no more memory.
    pub fn of(text: String) -> Key
        ensures { result ≡ chars (string_bytes text) }
    {
        Key(text)
    }
}

impl fmt::Display for Key {
    ghost use Rattle.std.specs.Prelude.{Some};
    ghost use Rattle.std.specs.Str.{encode_utf8_all};

    ghost output = { λ s. Some (encode_utf8_all s) };

    fn fmt<W: fmt::Write>(&self, f: &mut fmt::Formatter<W>) -> fmt::Result {
        self.0.fmt(f)
    }
}

impl fmt::Debug for Key {
    fn fmt<W: fmt::Write>(&self, f: &mut fmt::Formatter<W>) -> fmt::Result {
        self.0.fmt(f)
    }
}
