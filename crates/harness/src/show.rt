// Writes answers, as the case files have them: each function here writes a line or a part of one. A write that fails is an error.
use crate::lent::{all_are, bytes_agree};
use base::refusal::Refusal;
use std::io;
use std::io::Write;

// The case asks for more than the program lends.
pub fn too_large(to: &mut impl Write) -> io::Result<()> {
    writeln!(to, "too large")
}

// An operation did not leave what is lent as it must.
pub fn broken(to: &mut impl Write) -> io::Result<()> {
    writeln!(to, "broken")
}

pub fn say_refusal(to: &mut impl Write, x: Refusal) -> io::Result<()> {
    writeln!(to, "{x}")
}

// A refusal leaves the storage as it was.
pub fn refused_on(to: &mut impl Write, x: Refusal, cells: &[u8], before: &[u8]) -> io::Result<()> {
    if !bytes_agree(cells, before) {
        return broken(to);
    }
    say_refusal(to, x)
}

// A refusal leaves the output filled with x. What its line ends with is given.
pub fn refused_output(
    to: &mut impl Write,
    r: Refusal,
    end: &[u8],
    out: &[u8],
    x: u8,
) -> io::Result<()> {
    if !all_are(out, x) {
        return broken(to);
    }
    write!(to, "{r}")?;
    to.write_all(end)
}

fn say_bytes(to: &mut impl Write, s: &[u8]) -> io::Result<()> {
    for b in s {
        write!(to, "{b:02x}")?;
    }
    Ok(())
}

pub fn say_stopped(to: &mut impl Write, steps: u32, cells: &[u8]) -> io::Result<()> {
    write!(to, "steps {steps} ")?;
    say_storage(to, cells)
}

pub fn say_storage(to: &mut impl Write, cells: &[u8]) -> io::Result<()> {
    write!(to, "storage ")?;
    say_bytes(to, cells)?;
    writeln!(to)
}

// The first n bytes of the output were written; those past them are x still.
pub fn say_wrote(to: &mut impl Write, n: usize, out: &[u8], x: u8) -> io::Result<()> {
    let Some((written, rest)) = out.split_at_checked(n) else {
        return broken(to);
    };
    if !all_are(rest, x) {
        return broken(to);
    }
    write!(to, "wrote {n} ")?;
    say_bytes(to, written)?;
    writeln!(to)
}
