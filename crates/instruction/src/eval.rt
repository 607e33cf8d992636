// The value of an expression on a storage.
ghost use Rattle.std.specs.Prelude.{◌≡◌};
ghost use Rattle.instruction.specs.Value.{Readable, Values, joined};

use reader::read_at;
use storage::bits::{both, either};

// A bit, and the place after the expression that it is the value of.
#[derive(Clone, Copy)]
pub struct Valued {
    pub bit: u8,
    pub next: usize,
}

// Works out the expression at a place of an accepted program, which ends by `stop` (R11). Operands are worked out first.
pub fn value_at(file: &[u8], s: &[u8], vars: usize, stop: usize, at: usize) -> Valued
    requires { Readable file.now s.now vars stop at }
    ensures { Values file.now s.now vars stop at result }
{
    let b = read_at(file, at);
    if b < 250 {
        return Valued {
            bit: s[b as usize],
            next: at + 1,
        };
    }
    if b < 252 {
        return Valued {
            bit: b - 250,
            next: at + 1,
        };
    }
    let x = value_at(file, s, vars, stop, at + 1);
    if b == 252 {
        return Valued {
            bit: 1 - x.bit,
            next: x.next,
        };
    }
    let y = value_at(file, s, vars, stop, x.next);
    Valued {
        bit: join(b, x.bit, y.bit),
        next: y.next,
    }
}

// AND (253) or OR (254) of two bits.
fn join(b: u8, x: u8, y: u8) -> u8
    ensures { result ≡ joined b x y }
{
    if b == 253 {
        return both(x, y);
    }
    either(x, y)
}
