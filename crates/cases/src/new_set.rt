// The operations that write a set. A case is read whole before it is answered, and work and output are lent once their
// sizes were looked at.
ghost use Rattle.std.specs.Prelude.{◌≤◌};

use base::shape::Shape;
use harness::read::{Stop, read_numbers, read_string};
use harness::run::{build_shown, compose_shown, unchanging_shown};
use harness::show::too_large;
use std::io;
use std::io::{Read, Write};
use std::num::TryFromIntError;

// The most that is lent.
const ROWS: usize = 90000;

const NUMBERS: usize = 140000;

const HEADS: usize = 112000;

const OUTPUT: usize = 400000;

// Lends so many rows, numbers, heads and bytes of output. What lends has no way out before, since a function with one clears what
// it lends twice; and it is not put into its caller, whose other calls would pay its stack.
#[inline(never)]
fn build_lent(
    to: &mut impl Write,
    file: &[u8],
    r: usize,
    n: usize,
    h: usize,
    o: usize,
) -> io::Result<()>
    requires { (r ≤ 90000) × (n ≤ 140000) × (h ≤ 112000) × (o ≤ 400000) }
{
    let mut rows = [0u64; ROWS];
    let mut numbers = [0u16; NUMBERS];
    let mut heads = [0u16; HEADS];
    let mut out = [0u8; OUTPUT];
    build_shown(
        to,
        file,
        &mut rows[..r],
        &mut numbers[..n],
        &mut heads[..h],
        &mut out[..o],
    )
}

// 3: builds a program's set, with so many rows, numbers, heads and bytes of output lent.
pub fn build_case(from: &mut impl Read, to: &mut impl Write, file: &mut [u8]) -> Result<(), Stop> {
    let program = read_string(from, file)?;
    let mut asked = [0usize; 4];
    read_numbers(from, &mut asked)?;
    let [r, n, h, o] = asked;
    let Some(k) = program else {
        return Ok(too_large(to)?);
    };
    if ROWS < r || NUMBERS < n || HEADS < h || OUTPUT < o {
        return Ok(too_large(to)?);
    }
    Ok(build_lent(to, &file[..k], r, n, h, o)?)
}

// Lends so many rows, numbers and bytes of output.
#[inline(never)]
fn compose_lent(
    to: &mut impl Write,
    first: &[u8],
    second: &[u8],
    r: usize,
    n: usize,
    o: usize,
) -> io::Result<()>
    requires { (r ≤ 90000) × (n ≤ 140000) × (o ≤ 400000) }
{
    let mut rows = [0u64; ROWS];
    let mut numbers = [0u16; NUMBERS];
    let mut out = [0u8; OUTPUT];
    compose_shown(
        to,
        first,
        second,
        &mut rows[..r],
        &mut numbers[..n],
        &mut out[..o],
    )
}

// 6: composes two sets, with so many rows, numbers and bytes of output lent.
pub fn compose_case(
    from: &mut impl Read,
    to: &mut impl Write,
    file: &mut [u8],
) -> Result<(), Stop> {
    let mut second = [0u8; 400000];
    let first_held = read_string(from, file)?;
    let second_held = read_string(from, &mut second)?;
    let mut asked = [0usize; 3];
    read_numbers(from, &mut asked)?;
    let [r, n, o] = asked;
    let (Some(k), Some(m)) = (first_held, second_held) else {
        return Ok(too_large(to)?);
    };
    if ROWS < r || NUMBERS < n || OUTPUT < o {
        return Ok(too_large(to)?);
    }
    Ok(compose_lent(to, &file[..k], &second[..m], r, n, o)?)
}

// The numbers of a shape are at most 255.
fn shape_of(d: usize, i: usize, o: usize, m: usize) -> Result<Shape, TryFromIntError> {
    Ok(Shape {
        depth: u16::from(u8::try_from(d)?),
        inputs: u16::from(u8::try_from(i)?),
        outputs: u16::from(u8::try_from(o)?),
        memory: u16::from(u8::try_from(m)?),
    })
}

// Lends so many bytes of output.
fn unchanging_lent(to: &mut impl Write, shape: Shape, lent: usize) -> io::Result<()>
    requires { lent ≤ 400000 }
{
    let mut out = [0u8; OUTPUT];
    unchanging_shown(to, shape, &mut out[..lent])
}

// 7: writes the set that changes nothing, with so many bytes of output lent.
pub fn unchanging_case(from: &mut impl Read, to: &mut impl Write) -> Result<(), Stop> {
    let mut asked = [0usize; 5];
    read_numbers(from, &mut asked)?;
    let [d, i, o, m, lent] = asked;
    let Ok(shape) = shape_of(d, i, o, m) else {
        return Ok(too_large(to)?);
    };
    if OUTPUT < lent {
        return Ok(too_large(to)?);
    }
    Ok(unchanging_lent(to, shape, lent)?)
}
