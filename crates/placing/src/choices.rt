// One of two, without a branch: in the loops that call these it could not be foreseen.
ghost use Rattle.std.specs.Prelude.{◌≡◌, cond};
ghost use Rattle.placing.specs.Choices.{Lesser, Greater};

// The lesser of two.
pub(crate) fn lesser(a: i64, b: i64) -> i64
    ensures { Lesser a b result }
{
    a.min(b)
}

// The greater of two.
pub(crate) fn greater(a: i64, b: i64) -> i64
    ensures { Greater a b result }
{
    a.max(b)
}

// The one label or the other.
pub(crate) fn choose(first: bool, a: u8, b: u8) -> u8
    ensures { result ≡ cond first a b }
{
    if first { a } else { b }
}
