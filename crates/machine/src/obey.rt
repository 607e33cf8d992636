// One instruction of an accepted program, decoded where its entry leads and performed.
ghost use Rattle.std.specs.Prelude.{◌≡◌, get_or};
ghost use Rattle.rules.specs.Shape.{flag};
ghost use Rattle.base.specs.Answers.{shape_of};
ghost use Rattle.instruction.specs.Perform.{Fitting};
ghost use Rattle.machine.specs.Run.{Runnable, jump_by, Obeys};

use base::kinds::Instr;
use base::shape::Shape;
use instruction::eval::value_at;
use instruction::perform::{alone_op, value_op, variable_op};
use program::file::Program;
use reader::body::Body;
use reader::code::{AloneCode, LabelCode};
use storage::{cell_at, reset};

// Where the machine goes after an instruction.
#[derive(Clone, Copy)]
pub enum Move {
    // To a later instruction.
    On(Instr),
    // To a later instruction, and back to the next one when that part ends.
    Call(Instr),
    // Back to where this part was called from.
    End,
}

// R22: where a jump or call leads, with the label l; the next instruction is `next`.
fn jump(shape: Shape, s: &[u8], code: LabelCode, next: Instr, l: Instr) -> Move
    requires { Fitting shape s.now }
    ensures { result ≡ jump_by code (get_or s.now (flag (shape_of shape)) 0) next l }
{
    let down = cell_at(s, shape.flag()) == 0;
    match code {
        LabelCode::Jp => Move::On(l),
        LabelCode::Js => Move::Call(l),
        LabelCode::Jpc | LabelCode::Jsc if down => Move::On(next),
        LabelCode::Jpc => Move::On(l),
        LabelCode::Jsc => Move::Call(l),
    }
}

// Performs one instruction on the storage, and says where the machine goes (R16 to R23).
pub fn obey(program: &Program<'_>, s: &mut [u8], i: Instr) -> Move
    requires { Runnable program.now s.old i.0 }
    ensures { Obeys program.now.file.now s.old i.0 result s.new }
{
    let shape = program.shape;
    let next = Instr(i.0 + 1);
    match program.instr(i) {
        Body::Alone(code) => match code {
            AloneCode::End => {
                reset(s, shape.flag());
                Move::End
            }
            _ => {
                alone_op(shape, s, code);
                Move::On(next)
            }
        },
        Body::Value(code, at) => {
            let x = value_at(program.file, s, shape.vars(), at + 64, at);
            value_op(shape, s, code, x.bit);
            Move::On(next)
        }
        Body::Variable(code, b) => {
            variable_op(shape, s, code, b);
            Move::On(next)
        }
        Body::Label(code, l) => jump(shape, s, code, next, l),
        // An accepted program has no such code.
        Body::Unknown => unreachable!(),
    }
}
