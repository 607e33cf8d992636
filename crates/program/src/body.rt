// The bodies of instructions (R10 to R13).
ghost use Rattle.std.specs.Prelude.{◌≡◌, ◌&&◌, ◌≤◌, ◌<◌, ltb, length, get_or};
ghost use Rattle.rules.specs.Edition.{old};
ghost use Rattle.rules.specs.Lists.{number_at};
ghost use Rattle.rules.specs.ProgramFile.{writable, entry_at, body_at};
ghost use Rattle.base.specs.Answers.{shape_of, verdict_of};
ghost use Rattle.program.specs.Stages.{ends, variable_at, label_at, body_read, instr_in, farthest};

use crate::expr::read_expr;
use base::bytes::word;
use base::kinds::{Cell, Instr};
use base::refusal::Refusal;
use base::shape::Shape;
use reader::body::{Body, decode};

// R12: whether an instruction may write a variable: it is below V, and no input.
fn may_write(shape: Shape, b: Cell) -> bool
    ensures { result ≡ writable (shape_of shape) b.0 }
{
    shape.inputs <= b.0 && (b.0 as usize) < shape.vars()
}

// R12, R48: the variable b, which must stand at a place, is there (1) and may be written (7).
fn check_variable(file: &[u8], shape: Shape, b: Cell, at: usize) -> Result<usize, Refusal>
    requires { b.0 ≡ get_or file.now at 0 }
    ensures { verdict_of result ≡ variable_at file.now (shape_of shape) at }
{
    if file.len() <= at {
        return Err(Refusal::EndsEarly(file.len()));
    }
    if !may_write(shape, b) {
        return Err(Refusal::NotWritable(at));
    }
    Ok(at + 1)
}

// R13: whether instruction i of n may jump to l: it comes later, and is one of the n. Both are compared as numbers, as the clause says.
fn may_jump(i: Instr, l: Instr, n: usize) -> bool
    ensures { result ≡ (ltb i.0 l.0 && ltb l.0 n) }
{
    i.0 < l.0 && (l.0 as usize) < n
}

// R13, R48: the label l, which must stand at a place, is whole (1) and leads to a later instruction (8).
fn check_label(file: &[u8], n: usize, i: Instr, l: Instr, at: usize) -> Result<usize, Refusal>
    requires { (l.0 ≡ number_at 2 file.now at) × (at ≤ farthest) }
    ensures { verdict_of result ≡ label_at file.now n i.0 at }
{
    if file.len() < at + 2 {
        return Err(Refusal::EndsEarly(file.len()));
    }
    if !may_jump(i, l, n) {
        return Err(Refusal::BadLabel(at));
    }
    Ok(at + 2)
}

// R10, R48: the body of instruction i of n at a place: its code is known (5), and then its operand.
pub fn read_body(file: &[u8], shape: Shape, n: usize, i: Instr, at: usize) -> Result<usize, Refusal>
    requires { at < farthest }
    ensures { verdict_of result ≡ ends (body_read file.now (shape_of shape) n i.0 at) }
{
    match decode(file, at) {
        Body::Alone(_) => Ok(at + 1),
        Body::Value(_, from) => read_expr(file, shape.vars(), at + 65, from),
        Body::Variable(_, b) => check_variable(file, shape, b, at + 1),
        Body::Label(_, l) => check_label(file, n, i, l, at + 1),
        Body::Unknown => Err(Refusal::UnknownCode(at)),
    }
}

// R9: where the body of instruction i of n stands, by its entry; nothing before it is read.
pub fn body_at(file: &[u8], n: usize, i: Instr) -> usize
    requires { (i.0 < n) × (n ≤ 512) × (entry_at old n ≤ length file.now) }
    ensures { (result ≡ body_at old file.now n i.0) × (result < farthest) }
{
    7 + 2 * n + word(file, 7 + 2 * (i.0 as usize))
}

// R9, R10: the body of instruction i of n, where its entry leads; nothing before it is read.
pub fn instr_at(file: &[u8], n: usize, i: Instr) -> Body
    requires { (i.0 < n) × (n ≤ 512) × (entry_at old n ≤ length file.now) }
    ensures { result ≡ instr_in file.now n i.0 }
{
    decode(file, body_at(file, n, i))
}
