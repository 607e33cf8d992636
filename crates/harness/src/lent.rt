// Tests what an operation leaves in what it was lent.
ghost use Rattle.std.specs.Prelude.{◌≡◌};
ghost use Rattle.harness.specs.Lent.{all_are, Tells};

// Whether every element is x. It looks at all of them, whatever it finds: a loop that leaves early is compiled to a step an element.
pub fn all_are<T: PartialEq + Copy>(s: &[T], x: T) -> bool
    ensures { result ≡ all_are T.eq x s.now }
{
    let mut same = true;
    for y in s {
        same = same & (*y == x);
    }
    same
}

// Whether two slices hold the same bytes.
pub fn bytes_agree(a: &[u8], b: &[u8]) -> bool
    ensures { Tells result (a.now ≡ b.now) }
{
    a == b
}
