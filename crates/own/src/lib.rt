// An instruction's own set: the rows of its main expression added to a table, and the heads (R37).
#![tactic(auto)]

pub mod heads;
pub mod mains;

ghost use Rattle.std.specs.Prelude.{◌+◌, ◌≤◌, ◌<◌, length};
ghost use Rattle.rules.specs.Expr.{Exp, Read};
ghost use Rattle.rules.specs.Shape.{vars};
ghost use Rattle.base.specs.Answers.{shape_of};
ghost use Rattle.reader.specs.Codes.{alone_of, on_expr, on_variable};
ghost use Rattle.program.specs.Reading.{Reads, Legible};
ghost use Rattle.table.specs.Append.{Kept};
ghost use Rattle.own.specs.Owning.{Owning, Owns};

use crate::heads::{change_alone, change_value, change_variable, put_heads};
use crate::mains::{row_alone, row_value, row_variable};
use base::kinds::Cell;
use base::refusal::Refusal;
use base::shape::Shape;
use reader::code::{AloneCode, ValueCode, VariableCode};
use table::LentTable;

// R37: the own set of an instruction that stands alone, over a table: its row is added, and the heads are made. END's is INIT's.
pub fn own_alone(
    shape: Shape,
    code: AloneCode,
    table: &mut LentTable,
    made: &mut [u16],
) -> Result<(), Refusal>
    requires { Owning shape table.old made.old }
    ensures kept { Kept table.old table.new }
    ensures owns { Owns (shape_of shape) (alone_of code) table.old result table.new made.new }
{
    let change = change_alone(shape, code);
    let row = row_alone(shape, code, table)?;
    put_heads(shape, change, row, made);
    Ok(())
}

// R37: the own set of an instruction with the expression at a place.
pub fn own_value(
    file: &[u8],
    shape: Shape,
    code: ValueCode,
    at: usize,
    table: &mut LentTable,
    made: &mut [u16],
) -> Result<(), Refusal>
    requires owning { Owning shape table.old made.old }
    requires expression { (at ≤ length file.now) × Legible file.now (vars (shape_of shape)) (at + 64) at }
    ensures kept { Kept table.old table.new }
    ensures owns { (x : Read Exp) → Reads file.now (vars (shape_of shape)) (at + 64) at x
        → Owns (shape_of shape) (on_expr code x.got) table.old result table.new made.new }
{
    let change = change_value(shape, code);
    let row = row_value(file, shape, code, at, table)?;
    put_heads(shape, change, row, made);
    Ok(())
}

// R37: the own set of an instruction with the variable b.
pub fn own_variable(
    shape: Shape,
    code: VariableCode,
    b: Cell,
    table: &mut LentTable,
    made: &mut [u16],
) -> Result<(), Refusal>
    requires owning { Owning shape table.old made.old }
    requires variable { b.0 < vars (shape_of shape) }
    ensures kept { Kept table.old table.new }
    ensures owns { Owns (shape_of shape) (on_variable code b.0) table.old result table.new made.new }
{
    let change = change_variable(shape, code, b);
    let row = row_variable(shape, code, b, table)?;
    put_heads(shape, change, row, made);
    Ok(())
}
