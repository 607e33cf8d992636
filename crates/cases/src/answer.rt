// Reads the next case and answers it.
use crate::new_set::{build_case, compose_case, unchanging_case};
use crate::one_file::{check_case, evaluate_case, scan_case};
use harness::read::Stop;
use input::read_full;
use program::check_program;
use sets::check_set;
use std::io;
use std::io::{Read, Write};

// The operation of the next case, if the input has one.
pub fn read_operation(from: &mut impl Read) -> io::Result<Option<u8>> {
    let mut operation = [0u8; 1];
    if read_full(from, &mut operation)? == 0 {
        return Ok(None);
    }
    Ok(Some(operation[0]))
}

// The case whose operation was read. It stays the byte that a case file has, since it is matched here alone; and a `match`, since each
// function takes other things.
pub fn answer_case(
    from: &mut impl Read,
    to: &mut impl Write,
    operation: u8,
    file: &mut [u8],
    cells: &mut [u8; 4096],
) -> Result<(), Stop> {
    match operation {
        1 => check_case(from, to, check_program, file),
        2 => scan_case(from, to, file, cells),
        3 => build_case(from, to, file),
        4 => check_case(from, to, check_set, file),
        5 => evaluate_case(from, to, file, cells),
        6 => compose_case(from, to, file),
        7 => unchanging_case(from, to),
        _ => Err(Stop::Cut),
    }
}
