// The machine's steps, from an instruction to the END that closes its part.
ghost use Rattle.machine.specs.Run.{Runnable, Ends};

use crate::obey::{Move, obey};
use base::kinds::Instr;
use program::file::Program;

// Steps from instruction i until its part ends, and answers how many steps are left; or the budget is spent, and it answers the
// instruction that is due. The return list is the recursion itself (R21).
pub fn run_from(program: &Program<'_>, s: &mut [u8], i: Instr, left: u32) -> Result<u32, Instr>
    requires { Runnable program.now s.old i.0 }
    ensures { Ends program.now.file.now s.old i.0 left result s.new }
{
    if left == 0 {
        return Err(i);
    }
    match obey(program, s, i) {
        Move::End => Ok(left - 1),
        Move::On(j) => run_from(program, s, j, left - 1),
        Move::Call(l) => {
            let m = run_from(program, s, l, left - 1)?;
            run_from(program, s, Instr(i.0 + 1), m)
        }
    }
}
