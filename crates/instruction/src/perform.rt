// What the instructions of R17 to R20 do to a storage. The shape and the bytes go side by side: a struct of both was tried, and is
// no plainer, since each code then wants an answer, and none does now.
ghost use Rattle.std.specs.Prelude.{◌≡◌, ◌<◌};
ghost use Rattle.base.specs.Answers.{shape_of};
ghost use Rattle.rules.specs.Shape.{vars};
ghost use Rattle.storage.specs.Cells.{stored};
ghost use Rattle.reader.specs.Codes.{alone_of, on_variable};
ghost use Rattle.instruction.specs.Perform.{Fitting, on_value};

use base::kinds::Cell;
use base::shape::Shape;
use reader::code::{AloneCode, ValueCode, VariableCode};
use storage::bits::{both, either};
use storage::{cell_at, drop_top, push, put_cell, reset};

// An instruction that stands alone (R17, R19); END leaves the cells as INIT does (R20).
#[tactic(auto, unfolding(storage::specs::Cells::stored))]
pub fn alone_op(shape: Shape, s: &mut [u8], code: AloneCode)
    requires { Fitting shape s.old }
    ensures { s.new ≡ stored (shape_of shape) s.old (alone_of code) }
{
    let f = shape.flag();
    let e = Cell(f.0 + 1);
    let x = cell_at(s, f);
    let y = cell_at(s, e);
    match code {
        AloneCode::Init | AloneCode::End => reset(s, f),
        AloneCode::Not => put_cell(s, f, 1 - x),
        AloneCode::Tand => put_cell(s, f, both(x, y)),
        AloneCode::Tor => put_cell(s, f, either(x, y)),
        AloneCode::Push => push(s, f, x),
        AloneCode::Pop => {
            drop_top(s, f);
            put_cell(s, f, y);
        }
        AloneCode::Drop => drop_top(s, f),
        AloneCode::Dup => push(s, f, y),
        AloneCode::Fswp => {
            put_cell(s, e, x);
            put_cell(s, f, y);
        }
        AloneCode::Eswp => {
            let z = cell_at(s, Cell(f.0 + 2));
            put_cell(s, Cell(f.0 + 2), y);
            put_cell(s, e, z);
        }
    }
}

// LOAD, AND, OR, EPUSH, where x is the value of the expression (R17, R19).
pub fn value_op(shape: Shape, s: &mut [u8], code: ValueCode, x: u8)
    requires { Fitting shape s.old }
    ensures { s.new ≡ on_value (shape_of shape) s.old code x }
{
    let f = shape.flag();
    let y = cell_at(s, f);
    match code {
        ValueCode::Load => put_cell(s, f, x),
        ValueCode::And => put_cell(s, f, both(y, x)),
        ValueCode::Or => put_cell(s, f, either(y, x)),
        ValueCode::Epush => push(s, f, x),
    }
}

// STORE, SET, RES, REDGE, FEDGE of variable b (R18).
#[tactic(auto, unfolding(storage::specs::Cells::stored))]
pub fn variable_op(shape: Shape, s: &mut [u8], code: VariableCode, b: Cell)
    requires fitting { Fitting shape s.old }
    requires variable { b.0 < vars (shape_of shape) }
    ensures { s.new ≡ stored (shape_of shape) s.old (on_variable code b.0) }
{
    let f = shape.flag();
    let x = cell_at(s, f);
    let y = cell_at(s, b);
    match code {
        VariableCode::Store => put_cell(s, b, x),
        VariableCode::Set => put_cell(s, b, either(x, y)),
        VariableCode::Res => put_cell(s, b, both(1 - x, y)),
        VariableCode::Redge => {
            put_cell(s, b, x);
            put_cell(s, f, both(x, 1 - y));
        }
        VariableCode::Fedge => {
            put_cell(s, b, x);
            put_cell(s, f, both(1 - x, y));
        }
    }
}
