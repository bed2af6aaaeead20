// The code points that were fed and not yet read.
ghost use Rattle.std.specs.Prelude.{◌≡◌, ◌≤◌, ◌<◌, ◌∷◌, [], ◌++◌, drop, length, OnErr, OnOk};

use std::alloc::{AllocError, Global};
use std::marker::Model;

/// Code points in order, read from the front and added at the end, seen as those that are unread.
///
/// What was read stays before them until a piece is added, and goes then where it is no less than what is unread: so each
/// code point is moved about once, and no more than twice what is unread is kept.
#[derive(Drop)]
pub struct Queue {
    chars: Vec<char>,
    read: usize,
}

impl Model for Queue {
    ghost use Rattle.std.specs.Prelude.{drop, length, ◌≤◌};
    ghost use Rattle.html_tokens.specs.Queue.{Unread};

    ghost Value = { Unread };

    ghost view = { λ q. record { items = drop q.read q.chars.items } };

    ghost invariant = { λ q. q.read ≤ length q.chars.items };
}

impl Queue {
    pub(crate) fn new(alloc: Global) -> Queue
        ensures { result.items ≡ [] }
    {
        Queue {
            chars: Vec::new(alloc),
            read: 0,
        }
    }

    /// The unread code points.
    pub(crate) fn unread(&self) -> &[char]
        ensures { result.now ≡ self.now.items }
    {
        &self.chars[self.read..]
    }

    /// How many are unread.
    pub(crate) fn len(&self) -> usize
        ensures { result ≡ length self.now.items }
    {
        self.chars.len() - self.read
    }

    /// Goes past so many code points.
    pub(crate) fn skip(&mut self, count: usize)
        requires { count ≤ length self.old.items }
        ensures { self.new.items ≡ drop count self.old.items }
    {
        self.read += count;
    }

    /// Adds code points at the end, or leaves those that are unread as they were.
    pub(crate) fn extend(&mut self, text: &[char]) -> Result<(), AllocError>
        ensures ok { OnOk result (self.new.items ≡ self.old.items ++ text.now) }
        ensures err { OnErr result (self.new.items ≡ self.old.items) }
    {
        if self.chars.len() - self.read <= self.read {
            self.forget();
        }
        self.chars.extend_from_slice(text)?;
        Ok(())
    }

    /// Drops what was read.
    fn forget(&mut self)
        ensures { self.new.items ≡ self.old.items }
    {
        let unread = self.len();
        self.chars.copy_within(self.read.., 0);
        self.chars.truncate(unread);
        self.read = 0;
    }
}
