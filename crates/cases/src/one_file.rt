// The operations on one file: it is checked, or run on a storage. A case is read whole before it is answered, and
// work is lent once its size was looked at.
ghost use Rattle.std.specs.Prelude.{◌≤◌, length};

use base::refusal::Refusal;
use harness::read::{Stop, read_number, read_string};
use harness::run::{evaluate_kept, say_checked, scan_kept};
use harness::show::too_large;
use std::io;
use std::io::{Read, Write};

// The most values that are lent.
const VALUES: usize = 70000;

// 1, 4: checks a program, or a set.
pub fn check_case<C: FnOnce(&[u8]) -> Result<(), Refusal>>(
    from: &mut impl Read,
    to: &mut impl Write,
    check: C,
    file: &mut [u8],
) -> Result<(), Stop>
    requires { C.IsAlwaysCallable check }
{
    let Some(n) = read_string(from, file)? else {
        return Ok(too_large(to)?);
    };
    Ok(say_checked(to, check(&file[..n]))?)
}

// Lends the copy, and scans.
fn scan_lent(to: &mut impl Write, file: &[u8], cells: &mut [u8], budget: u32) -> io::Result<()>
    requires { length cells.old ≤ 4096 }
{
    let mut before = [0u8; 4096];
    let n = cells.len();
    scan_kept(to, file, cells, &mut before[..n], budget)
}

// 2: scans a program.
pub fn scan_case(
    from: &mut impl Read,
    to: &mut impl Write,
    file: &mut [u8],
    cells: &mut [u8; 4096],
) -> Result<(), Stop> {
    let program = read_string(from, file)?;
    let storage = read_string(from, cells)?;
    let budget = read_number(from)?;
    let (Some(n), Some(m)) = (program, storage) else {
        return Ok(too_large(to)?);
    };
    Ok(scan_lent(to, &file[..n], &mut cells[..m], budget)?)
}

// Lends the copy and so many values, and evaluates.
fn evaluate_lent(to: &mut impl Write, file: &[u8], cells: &mut [u8], count: usize) -> io::Result<()>
    requires { (length cells.old ≤ 4096) × (count ≤ 70000) }
{
    let mut before = [0u8; 4096];
    let mut values = [0u8; VALUES];
    let n = cells.len();
    evaluate_kept(to, file, cells, &mut before[..n], &mut values[..count])
}

// 5: evaluates a set, with so many values lent.
pub fn evaluate_case(
    from: &mut impl Read,
    to: &mut impl Write,
    file: &mut [u8],
    cells: &mut [u8; 4096],
) -> Result<(), Stop> {
    let set = read_string(from, file)?;
    let storage = read_string(from, cells)?;
    let count = read_number(from)? as usize;
    let (Some(n), Some(m)) = (set, storage) else {
        return Ok(too_large(to)?);
    };
    if VALUES < count {
        return Ok(too_large(to)?);
    }
    Ok(evaluate_lent(to, &file[..n], &mut cells[..m], count)?)
}
