// Runs an operation on what is lent, and shows what it answers and leaves.
ghost use Rattle.std.specs.Prelude.{◌≡◌, length};

use crate::lent::all_are;
use crate::show::{
    broken, refused_on, refused_output, say_refusal, say_stopped, say_storage, say_wrote,
};
use base::refusal::Refusal;
use base::shape::Shape;
use build::build;
use compose::{Blame, compose};
use evaluate::evaluate;
use machine::scan;
use std::io;
use std::io::Write;
use writer::write_unchanging;

// What a check answered.
pub fn say_checked(to: &mut impl Write, r: Result<(), Refusal>) -> io::Result<()> {
    match r {
        Ok(()) => writeln!(to, "granted"),
        Err(x) => say_refusal(to, x),
    }
}

// Scans, and shows the storage after. A copy is kept of what it was.
pub fn scan_kept(
    to: &mut impl Write,
    file: &[u8],
    cells: &mut [u8],
    before: &mut [u8],
    budget: u32,
) -> io::Result<()>
    requires { length cells.old ≡ length before.old }
{
    before.copy_from_slice(cells);
    match scan(file, cells, budget) {
        Ok(steps) => say_stopped(to, steps, cells),
        Err(x) => refused_on(to, x, cells, before),
    }
}

// Evaluates, and shows the storage after. A copy is kept of what it was.
pub fn evaluate_kept(
    to: &mut impl Write,
    file: &[u8],
    cells: &mut [u8],
    before: &mut [u8],
    values: &mut [u8],
) -> io::Result<()>
    requires { length cells.old ≡ length before.old }
{
    before.copy_from_slice(cells);
    values.fill(165);
    let r = evaluate(file, cells, values);
    if !all_are(values, 0) {
        return broken(to);
    }
    match r {
        Ok(()) => say_storage(to, cells),
        Err(x) => refused_on(to, x, cells, before),
    }
}

// Fills rows and numbers with a pattern.
fn fill_work(rows: &mut [u64], numbers: &mut [u16]) {
    rows.fill(0xa5a5a5a5a5a5a5a5);
    numbers.fill(0xa5a5);
}

// Whether rows and numbers are zero.
fn work_is_zero(rows: &[u64], numbers: &[u16]) -> bool {
    all_are(rows, 0) && all_are(numbers, 0)
}

// Shows what building left in the output.
fn show_built(to: &mut impl Write, r: Result<usize, Refusal>, out: &[u8]) -> io::Result<()> {
    match r {
        Ok(n) => say_wrote(to, n, out, 165),
        Err(x) => refused_output(to, x, b"\n", out, 165),
    }
}

// Builds, and tests what is left of the work.
pub fn build_shown(
    to: &mut impl Write,
    file: &[u8],
    rows: &mut [u64],
    numbers: &mut [u16],
    heads: &mut [u16],
    out: &mut [u8],
) -> io::Result<()> {
    fill_work(rows, numbers);
    heads.fill(0xa5a5);
    out.fill(165);
    let r = build(file, rows, numbers, heads, out);
    if !work_is_zero(rows, numbers) {
        return broken(to);
    }
    if !all_are(heads, 0) {
        return broken(to);
    }
    show_built(to, r, out)
}

// Shows what composing left in the output.
fn show_composed(to: &mut impl Write, r: Result<usize, Blame>, out: &[u8]) -> io::Result<()> {
    match r {
        Ok(n) => say_wrote(to, n, out, 165),
        Err(Blame::First(x)) => refused_output(to, x, b" in first\n", out, 165),
        Err(Blame::Second(x)) => refused_output(to, x, b" in second\n", out, 165),
        Err(Blame::Neither(x)) => refused_output(to, x, b"\n", out, 165),
    }
}

// Composes, and tests what is left of the work.
pub fn compose_shown(
    to: &mut impl Write,
    first: &[u8],
    second: &[u8],
    rows: &mut [u64],
    numbers: &mut [u16],
    out: &mut [u8],
) -> io::Result<()> {
    fill_work(rows, numbers);
    out.fill(165);
    let r = compose(first, second, rows, numbers, out);
    if !work_is_zero(rows, numbers) {
        return broken(to);
    }
    show_composed(to, r, out)
}

// Writes the unchanging set, and shows it.
pub fn unchanging_shown(to: &mut impl Write, shape: Shape, out: &mut [u8]) -> io::Result<()> {
    out.fill(165);
    match write_unchanging(shape, out) {
        Ok(n) => say_wrote(to, n, out, 165),
        Err(x) => refused_output(to, x, b"\n", out, 165),
    }
}
