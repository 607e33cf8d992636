// Builds the set of the mix tank program, and compares the set and the program with the published formulas on every storage.
#![tactic(auto)]

mod compare;
mod published;

use crate::compare::compare_all;
use build::build;
use harness::show::{broken, say_refusal};
use input::read_full;
use std::io;
use std::io::Write;

// Says how many bytes the set has, and compares. The set is a part of the output that was lent.
fn show_built(to: &mut impl Write, program: &[u8], out: &[u8], n: usize) -> io::Result<()> {
    let Some(set) = out.get(..n) else {
        return broken(to);
    };
    writeln!(to, "wrote {n} bytes")?;
    compare_all(to, program, set)
}

// Builds the set of the program file. 33 instructions with 16 cells each need 528 heads (R55).
fn run_on(to: &mut impl Write, program: &[u8]) -> io::Result<()> {
    let mut rows = [0u64; 1024];
    let mut numbers = [0u16; 1024];
    let mut heads = [0u16; 528];
    let mut out = [0u8; 1024];
    match build(program, &mut rows, &mut numbers, &mut heads, &mut out) {
        Ok(n) => show_built(to, program, &out, n),
        Err(x) => say_refusal(to, x),
    }
}

// Reads a program file of at most 4,096 bytes.
fn main(rt: HostRuntime) -> io::Result<()> {
    let mut file = [0u8; 4096];
    let mut from = rt.stdin();
    let mut to = rt.stdout();
    let n = read_full(&mut from, &mut file)?;
    run_on(&mut to, &file[..n])
}
