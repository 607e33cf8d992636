// Compares what the set and the program leave of a storage with what the formulas say. A storage has 16 cells (R2).
use crate::published::apply_formulas;
use evaluate::evaluate;
use harness::lent::bytes_agree;
use machine::scan;
use std::io;
use std::io::Write;

// Storage k: cell c is bit c of k, where bit 0 is the lowest.
fn put_bits(k: u32, cells: &mut [u8; 16]) {
    for (c, cell) in cells.iter_mut().enumerate() {
        *cell = ((k >> c) % 2) as u8;
    }
}

// Whether the set, evaluated on a storage, leaves what is wanted. It has few rows: 64 values are enough (R57).
fn set_agrees(set: &[u8], before: &[u8; 16], wanted: &[u8; 16]) -> bool {
    let mut values = [0u8; 64];
    let mut cells = *before;
    evaluate(set, &mut cells, &mut values).is_ok() && bytes_agree(&cells, wanted)
}

// Whether the program, scanned on a storage, leaves what is wanted. It has no jumps: each of its 33 instructions is one step (R24).
fn scan_agrees(program: &[u8], before: &[u8; 16], wanted: &[u8; 16]) -> bool {
    let mut cells = *before;
    scan(program, &mut cells, 33).is_ok() && bytes_agree(&cells, wanted)
}

// Whether the set and the program both leave of storage k what the formulas say.
fn agree_on(program: &[u8], set: &[u8], k: u32) -> bool {
    let mut before = [0u8; 16];
    let mut wanted = [0u8; 16];
    put_bits(k, &mut before);
    apply_formulas(&before, &mut wanted);
    set_agrees(set, &before, &wanted) && scan_agrees(program, &before, &wanted)
}

// Compares on every storage, and says whether all agree, or the first that differs. Bits 0 to 12 of a storage's number are the
// variables, bit 13 is the flag, and bits 14 and 15 are the stack.
pub fn compare_all(to: &mut impl Write, program: &[u8], set: &[u8]) -> io::Result<()> {
    for k in 0..65536 {
        if !agree_on(program, set, k) {
            return writeln!(to, "storage {k:04x} differs");
        }
    }
    writeln!(to, "65536 storages agree")
}
