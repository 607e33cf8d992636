// An accepted program file (R8, R15).
ghost use Rattle.std.specs.Prelude.{◌≡◌, ◌<◌, IfOk};
ghost use Rattle.program.specs.Stages.{check_of};
ghost use Rattle.program.specs.Accepted.{Accepted, judged};

use crate::body::instr_at;
use crate::check_program;
use crate::header::shape_at;
use base::bytes::word;
use base::kinds::Instr;
use base::refusal::Refusal;
use base::shape::Shape;
use reader::body::Body;

// A program file that was accepted, its shape, and how many instructions it has.
#[derive(Clone, Copy)]
pub struct Program<'a> {
    pub file: &'a [u8],
    pub shape: Shape,
    pub count: usize,
    pub ghost accepted: { Accepted file.now shape count },
}

impl<'a> Program<'a> {
    ghost use Rattle.program.specs.Programs.{Told};

    // R51: judges a file, and takes its shape and its count from its header.
    pub fn read(file: &'a [u8]) -> Result<Program<'a>, Refusal>
        ensures judged { judged result ≡ check_of file.now }
        ensures same { IfOk result (λ p. p.file.now ≡ file.now) }
    {
        check_program(file)?;
        Ok(Program {
            file,
            shape: shape_at(file),
            count: word(file, 5),
        })
    }

    // R9, R10: the body of instruction i, where its entry leads; it tells what the instruction is.
    pub fn instr(&self, i: Instr) -> Body
        requires { i.0 < self.now.count }
        ensures { Told self.now i.0 result }
    {
        instr_at(self.file, self.count, i)
    }
}
