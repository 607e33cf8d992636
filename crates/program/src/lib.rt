// Checks a program file (R8 to R14, R48).
#![tactic(auto)]

pub mod body;
pub mod expr;
pub mod file;
pub mod header;
pub mod walk;

ghost use Rattle.std.specs.Prelude.{◌≡◌};
ghost use Rattle.base.specs.Answers.{verdict_of};
ghost use Rattle.program.specs.Stages.{check_of};

use crate::header::read_header;
use crate::walk::check_instrs;
use base::refusal::Refusal;

// R8, R48: whether a file is the file of a program. The header (1, 2, 3); the count (3) and the contents (1); each instruction in
// order (4, 1, 5, and then 1, 6, 7 or 8); bytes that follow (4); the last instruction (9).
pub fn check_program(file: &[u8]) -> Result<(), Refusal>
    ensures { verdict_of result ≡ check_of file.now }
{
    let shape = read_header(file, 1)?;
    check_instrs(file, shape)
}
