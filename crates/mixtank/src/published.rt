// The formulas of the mix tank, as the thesis publishes them on page 114.
ghost use Rattle.std.specs.Prelude.{◌≡◌, length};
ghost use Rattle.mixtank.specs.Published.{tank_of, new_pmp, new_swr, new_erru, new_errd, new_clredge};
ghost use Rattle.mixtank.specs.Published.{outputs_put, memory_put, published};

use base::kinds::Cell;
use storage::bits::{both, either, opposite};
use storage::{put_cell, reset};

// The variables, a bit each, in the order of their numbers: 7 inputs, 4 outputs, 2 memory bits.
#[derive(Clone, Copy)]
struct Tank {
    clr: u8,
    dn: u8,
    dne: u8,
    swrspd: u8,
    up: u8,
    upe: u8,
    pmpspd: u8,
    pmp: u8,
    swr: u8,
    erru: u8,
    errd: u8,
    eu1: u8,
    clredge: u8,
}

// The variables of a storage.
fn tank_of(s: &[u8]) -> Tank
    requires { length s.now ≡ 16 }
    ensures { result ≡ tank_of s.now }
{
    Tank {
        clr: s[0],
        dn: s[1],
        dne: s[2],
        swrspd: s[3],
        up: s[4],
        upe: s[5],
        pmpspd: s[6],
        pmp: s[7],
        swr: s[8],
        erru: s[9],
        errd: s[10],
        eu1: s[11],
        clredge: s[12],
    }
}

// The pump, which is an output.
fn new_pmp(t: Tank) -> u8
    ensures { result ≡ new_pmp t }
{
    let low = both(opposite(t.up), opposite(t.upe));
    let start = both(opposite(t.swrspd), either(t.dn, t.dne));
    both(low, either(start, t.pmp))
}

// The swirler, which is an output.
fn new_swr(t: Tank) -> u8
    ensures { result ≡ new_swr t }
{
    let high = both(opposite(t.dn), opposite(t.dne));
    both(high, either(opposite(t.pmpspd), t.swr))
}

// The rising edge of the button that clears errors, a memory bit.
fn new_clredge(t: Tank) -> u8
    ensures { result ≡ new_clredge t }
{
    both(t.clr, opposite(t.eu1))
}

// The alarm that the level is too high, an output.
fn new_erru(t: Tank) -> u8
    ensures { result ≡ new_erru t }
{
    both(opposite(new_clredge(t)), either(t.upe, t.erru))
}

// The alarm that the level is too low, an output.
fn new_errd(t: Tank) -> u8
    ensures { result ≡ new_errd t }
{
    both(opposite(new_clredge(t)), either(t.dne, t.errd))
}

// The four outputs get what their formulas say.
fn put_outputs(t: Tank, after: &mut [u8])
    requires { length after.old ≡ 16 }
    ensures { after.new ≡ outputs_put t after.old }
{
    put_cell(after, Cell(7), new_pmp(t));
    put_cell(after, Cell(8), new_swr(t));
    put_cell(after, Cell(9), new_erru(t));
    put_cell(after, Cell(10), new_errd(t));
}

// The two memory bits get what their formulas say.
fn put_memory(t: Tank, after: &mut [u8])
    requires { length after.old ≡ 16 }
    ensures { after.new ≡ memory_put t after.old }
{
    put_cell(after, Cell(11), t.clr);
    put_cell(after, Cell(12), new_clredge(t));
}

// What the formulas say of a whole storage: six variables change, and flag and stack become what END leaves (R20).
pub fn apply_formulas(before: &[u8], after: &mut [u8])
    requires before_len { length before.now ≡ 16 }
    requires after_len { length after.old ≡ 16 }
    ensures { after.new ≡ published before.now }
{
    let t = tank_of(before);
    after.copy_from_slice(before);
    put_outputs(t, after);
    put_memory(t, after);
    reset(after, Cell(13));
}
