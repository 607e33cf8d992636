// Operations on bits that are bytes.
ghost use Rattle.std.specs.Prelude.{◌≡◌, ◌-◌, min, max};

// NOT of a bit.
pub fn opposite(x: u8) -> u8
    ensures { result ≡ 1 - x }
{
    1u8.saturating_sub(x)
}

// AND of two bits.
pub fn both(x: u8, y: u8) -> u8
    ensures { result ≡ min x y }
{
    x.min(y)
}

// OR of two bits.
pub fn either(x: u8, y: u8) -> u8
    ensures { result ≡ max x y }
{
    x.max(y)
}
