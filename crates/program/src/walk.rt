// The instructions of a program, one after another (R8, R9, R14, R48).
ghost use Rattle.std.specs.Prelude.{◌≡◌, ◌≤◌, ◌<◌, length};
ghost use Rattle.rules.specs.Edition.{old};
ghost use Rattle.rules.specs.ProgramFile.{entry_at, read_instr, read_instrs};
ghost use Rattle.base.specs.Answers.{shape_of, verdict_of};
ghost use Rattle.program.specs.Stages.{ends, Contents, is_end_body, closed, instrs_of};

use crate::body::{body_at, read_body};
use crate::header::within;
use base::bytes::word;
use base::kinds::Instr;
use base::refusal::Refusal;
use base::shape::Shape;
use reader::body::{Body, decode};
use reader::code::AloneCode;

// The file, its shape and n go side by side here: a struct of a file with whole contents was tried, and is no plainer, since the
// clauses that name its fields are longer.
//
// R9, R48: instruction i of n, whose body must begin at a place: its entry says so (4), a code is there (1), and then its body.
fn read_instr(file: &[u8], shape: Shape, n: usize, i: Instr, at: usize) -> Result<usize, Refusal>
    requires { Contents file.now n × (i.0 < n) }
    ensures { verdict_of result ≡ ends (read_instr old file.now (shape_of shape) n i.0 at) }
{
    let entry = 7 + 2 * (i.0 as usize);
    let start = body_at(file, n, i);
    if start != at {
        return Err(Refusal::Misplaced(entry));
    }
    if file.len() <= at {
        return Err(Refusal::EndsEarly(file.len()));
    }
    read_body(file, shape, n, i, at)
}

// R9, R48: all n instructions, in order.
fn read_instrs(file: &[u8], shape: Shape, n: usize) -> Result<usize, Refusal>
    requires { Contents file.now n }
    ensures { verdict_of result ≡ ends (read_instrs old file.now (shape_of shape) n n (entry_at old n)) }
{
    let mut at = 7 + 2 * n;
    for i in 0..n {
        at = read_instr(file, shape, n, Instr::of_word(i), at)?;
    }
    Ok(at)
}

// R14: whether a body is END's.
fn is_end(body: Body) -> bool
    ensures { result ≡ is_end_body body }
{
    matches!(body, Body::Alone(AloneCode::End))
}

// R9, R14, R48: after n instructions that end at a place: the file ends there too (4), and the last is END (9).
fn check_end(file: &[u8], n: usize, at: usize) -> Result<(), Refusal>
    requires { Contents file.now n }
    ensures { verdict_of result ≡ closed file.now n at }
{
    if at < file.len() {
        return Err(Refusal::Misplaced(at));
    }
    let last = body_at(file, n, Instr::of_word(n - 1));
    if !is_end(decode(file, last)) {
        return Err(Refusal::LastNotEnd(last));
    }
    Ok(())
}

// R8, R48: what follows a header with that shape: the count is 1 to 512 (3), the contents are whole (1), then the instructions.
pub fn check_instrs(file: &[u8], shape: Shape) -> Result<(), Refusal>
    requires { 7 ≤ length file.now }
    ensures { verdict_of result ≡ instrs_of file.now (shape_of shape) }
{
    let n = word(file, 5);
    if !within(1, n, 512) {
        return Err(Refusal::OutOfRange(5));
    }
    if file.len() < 7 + 2 * n {
        return Err(Refusal::EndsEarly(file.len()));
    }
    let at = read_instrs(file, shape, n)?;
    check_end(file, n, at)
}
