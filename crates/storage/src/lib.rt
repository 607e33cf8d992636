// The cells of a storage as lent bytes: read, stored to, the stack moved, checked (R3, R16, R17, R19, R50).
#![tactic(auto)]

pub mod bits;

ghost use Rattle.std.specs.Prelude.{◌≡◌, ◌+◌, ◌<◌, length, get_or, set, nat_lt, position};
ghost use Rattle.storage.specs.Cells.{push_on, drop_top, reset_from};
ghost use Rattle.base.specs.Answers.{verdict_of};
ghost use Rattle.storage.specs.Checked.{check_cells};

use base::kinds::Cell;
use base::refusal::Refusal;

// R3: the byte of a cell.
pub fn cell_at(s: &[u8], c: Cell) -> u8
    requires { c.0 < length s.now }
    ensures { result ≡ get_or s.now c.0 0 }
{
    let at = c.0 as usize;
    s[at]
}

// R16: one cell gets a bit, and every other is kept.
pub fn put_cell(s: &mut [u8], c: Cell, bit: u8)
    requires { c.0 < length s.old }
    ensures { s.new ≡ set s.old c.0 bit }
{
    let at = c.0 as usize;
    s[at] = bit;
}

// R19: a bit comes on top of the stack, which begins after the flag. Each cell of it moves on by one, and the last is lost.
pub fn push(s: &mut [u8], flag: Cell, bit: u8)
    requires { flag.0 + 1 < length s.old }
    ensures { s.new ≡ push_on flag.0 bit s.old }
{
    let top = flag.0 as usize + 1;
    let last = s.len() - 1;
    s.copy_within(top..last, top + 1);
    s[top] = bit;
}

// R19: the top of the stack is taken off. Each cell after it moves back by one, and the last becomes 0.
pub fn drop_top(s: &mut [u8], flag: Cell)
    requires { flag.0 + 1 < length s.old }
    ensures { s.new ≡ drop_top flag.0 s.old }
{
    let top = flag.0 as usize + 1;
    let last = s.len() - 1;
    s.copy_within(top + 1.., top);
    s[last] = 0;
}

// R17: the flag becomes 1, and every cell of the stack 0.
pub fn reset(s: &mut [u8], flag: Cell)
    requires { flag.0 < length s.old }
    ensures { s.new ≡ reset_from flag.0 s.old }
{
    let at = flag.0 as usize;
    s[at] = 1;
    s[at + 1..].fill(0);
}

// R3: a storage gets what another has. `copy_heads` of `turn` is its twin for heads: each is one call.
pub fn copy_cells(from: &[u8], to: &mut [u8])
    requires { length from.now ≡ length to.old }
    ensures { to.new ≡ from.now }
{
    to.copy_from_slice(from);
}

// R50: the first cell that is no bit.
fn first_above(s: &[u8]) -> Option<usize>
    ensures { result ≡ position (λ x. nat_lt 1 x) s.now }
{
    s.iter().position(|x| 1 < *x)
}

// R3, R50: a storage has a byte for each cell, 0 or 1. The length is looked at first, then the cells in their order.
pub fn check_cells(s: &[u8], cells: usize) -> Result<(), Refusal>
    ensures { verdict_of result ≡ check_cells cells s.now }
{
    if s.len() != cells {
        return Err(Refusal::BadStorage(s.len()));
    }
    match first_above(s) {
        Some(i) => Err(Refusal::BadStorage(i)),
        None => Ok(()),
    }
}
