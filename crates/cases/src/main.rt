// Reads cases from standard input and writes an answer to each, a line a case, to standard output.
#![tactic(auto)]

mod answer;
mod new_set;
mod one_file;

use crate::answer::{answer_case, read_operation};
use harness::read::Stop;
use std::io;
use std::io::{Read, Write};

// Nothing says that the input ends, and a proved loop does: no run uses up so many turns.
fn run_cases(
    from: &mut impl Read,
    to: &mut impl Write,
    file: &mut [u8; 400000],
    cells: &mut [u8; 4096],
) -> Result<(), Stop> {
    for _ in 0..u64::MAX {
        let Some(operation) = read_operation(from)? else {
            break;
        };
        answer_case(from, to, operation, file, cells)?;
    }
    Ok(())
}

// Lends 400,000 bytes for a file and 4,096 for a storage.
fn main(rt: HostRuntime) -> io::Result<()> {
    let mut file = [0u8; 400000];
    let mut cells = [0u8; 4096];
    let mut from = rt.stdin();
    let mut to = rt.stdout();
    match run_cases(&mut from, &mut to, &mut file, &mut cells) {
        Err(Stop::Cut) => writeln!(to, "cut"),
        Err(Stop::Failed(e)) => Err(e),
        Ok(()) => Ok(()),
    }
}
