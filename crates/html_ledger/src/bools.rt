// Two tests as one value.
ghost use Rattle.std.specs.Prelude.{◌≡◌, ◌&&◌, ◌||◌};

/// Both hold.
pub(crate) fn both(first: bool, second: bool) -> bool
    ensures value { result ≡ (first && second) }
{
    first && second
}

/// One of them holds, or both.
pub(crate) fn either(first: bool, second: bool) -> bool
    ensures value { result ≡ (first || second) }
{
    first || second
}
