// Reads the fields of a case.
ghost use Rattle.std.specs.Prelude.{◌≡◌, ◌≤◌, IfOk, length};
ghost use Rattle.rules.specs.Lists.{number_at};
ghost use Rattle.harness.specs.Fields.{Fits};

use input::read_full;
use std::io;
use std::io::Read;

// Why no case follows.
#[derive(Drop)]
pub enum Stop {
    // The input ends within a case, or the case is none.
    Cut,
    // A read or a write failed.
    Failed(io::Error),
}

impl From<io::Error> for Stop {
    fn from(e: io::Error) -> Stop {
        Stop::Failed(e)
    }
}

// Fills what was lent.
fn fill(from: &mut impl Read, lent: &mut [u8]) -> Result<(), Stop> {
    if read_full(from, lent)? < lent.len() {
        return Err(Stop::Cut);
    }
    Ok(())
}

// The number that four bytes are, low byte first.
fn number_of(b: [u8; 4]) -> u32
    ensures { result ≡ number_at 4 b 0 }
{
    u32::from_le_bytes(b)
}

// Reads a number.
pub fn read_number(from: &mut impl Read) -> Result<u32, Stop> {
    let mut b = [0u8; 4];
    fill(from, &mut b)?;
    Ok(number_of(b))
}

// Reads numbers into what was lent.
pub fn read_numbers(from: &mut impl Read, lent: &mut [usize]) -> Result<(), Stop> {
    for n in lent {
        *n = read_number(from)? as usize;
    }
    Ok(())
}

// Reads at most 4,096 bytes of those that are left, and says how many came.
fn skip_some(from: &mut impl Read, left: usize) -> io::Result<usize>
    ensures { IfOk result (λ n. n ≤ left) }
{
    let mut buf = [0u8; 4096];
    let count = left.min(buf.len());
    read_full(from, &mut buf[..count])
}

// Reads past so many bytes. It counts what is left, and no index.
pub fn skip_bytes(from: &mut impl Read, count: usize) -> Result<(), Stop> {
    let mut left = count;
    while 0 < left {
        let got = skip_some(from, left)?;
        if got == 0 {
            return Err(Stop::Cut);
        }
        left -= got;
    }
    Ok(())
}

// Reads a string, and says how many bytes of what was lent hold it. One that is longer than that is read past, and none do.
pub fn read_string(from: &mut impl Read, lent: &mut [u8]) -> Result<Option<usize>, Stop>
    ensures fitting { IfOk result (λ r. Fits r (length lent.old)) }
    ensures kept { length lent.new ≡ length lent.old }
{
    let count = read_number(from)? as usize;
    if lent.len() < count {
        skip_bytes(from, count)?;
        return Ok(None);
    }
    fill(from, &mut lent[..count])?;
    Ok(Some(count))
}
