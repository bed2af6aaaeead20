// Marks of a node: where tree construction keeps it.
ghost use Rattle.std.specs.Prelude.{◌≡◌};
ghost use Rattle.html_arena.specs.Marks.{has_mark, no_marks, with_mark};

/// A place where tree construction keeps a node.
#[derive(Clone, Copy, Debug, PartialEq, Eq)]
pub enum Mark {
    /// On the stack of open elements.
    OnStack,
    /// In the list of active formatting elements.
    InList,
}

/// The marks of one node.
#[derive(Clone, Copy, Debug, PartialEq, Eq)]
pub struct Marks {
    pub on_stack: bool,
    pub in_list: bool,
}

impl Marks {
    /// Neither mark.
    pub(crate) fn none() -> Marks
        ensures { result ≡ no_marks }
    {
        Marks {
            on_stack: false,
            in_list: false,
        }
    }

    /// Whether a mark is set.
    pub(crate) fn has(self, mark: Mark) -> bool
        ensures { result ≡ has_mark mark self }
    {
        match mark {
            Mark::OnStack => self.on_stack,
            Mark::InList => self.in_list,
        }
    }

    /// The marks with one of them set or cleared.
    pub(crate) fn with(self, mark: Mark, on: bool) -> Marks
        ensures { result ≡ with_mark mark on self }
    {
        match mark {
            Mark::OnStack => Marks {
                on_stack: on,
                in_list: self.in_list,
            },
            Mark::InList => Marks {
                on_stack: self.on_stack,
                in_list: on,
            },
        }
    }
}
