// The front of a slice that may be shorter.
ghost use Rattle.std.specs.Prelude.{◌≡◌, take};

// The first n, or all that there are.
pub(crate) fn front<T>(s: &[T], n: usize) -> &[T]
    ensures { result.now ≡ take n s.now }
{
    &s[..n.min(s.len())]
}
