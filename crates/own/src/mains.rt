// The row of an instruction's main expression, the only one that can be no constant and no cell (R17 to R19, R37).
ghost use Rattle.std.specs.Prelude.{◌+◌, ◌≤◌, ◌<◌, length};
ghost use Rattle.base.specs.Answers.{shape_of};
ghost use Rattle.rules.specs.Expr.{Exp, Read};
ghost use Rattle.rules.specs.Shape.{vars, cells};
ghost use Rattle.reader.specs.Codes.{alone_of, on_expr, on_variable};
ghost use Rattle.program.specs.Reading.{Reads, Legible};
ghost use Rattle.table.specs.Append.{Kept};
ghost use Rattle.spell.specs.Made.{Made};
ghost use Rattle.own.specs.Changes.{main_of};
ghost use Rattle.own.specs.Mains.{Given};

use base::kinds::{Cell, Row};
use base::refusal::Refusal;
use base::shape::Shape;
use reader::code::{AloneCode, ValueCode, VariableCode};
use rows::adding::add;
use rows::node::Node;
use spell::expression::add_expression;
use table::LentTable;

// R17, R19: adds the main row of an instruction that stands alone; END's is INIT's.
pub fn row_alone(shape: Shape, code: AloneCode, table: &mut LentTable) -> Result<Row, Refusal>
    requires { Given shape table.old }
    ensures kept { Kept table.old table.new }
    ensures made { Made (cells (shape_of shape)) table.old (main_of (shape_of shape) (alone_of code)) result table.new }
{
    let f = shape.flag();
    let x = Row::of_cell(f);
    let y = Row::of_cell(Cell(f.0 + 1));
    match code {
        AloneCode::Init | AloneCode::End => Ok(Row::TRUE),
        AloneCode::Not => add(table, Node::Not(x)),
        AloneCode::Tand => add(table, Node::Two(true, x, y)),
        AloneCode::Tor => add(table, Node::Two(false, x, y)),
        AloneCode::Push | AloneCode::Drop => Ok(x),
        AloneCode::Pop | AloneCode::Dup | AloneCode::Fswp => Ok(y),
        AloneCode::Eswp => Ok(Row::of_cell(Cell(f.0 + 2))),
    }
}

// R17, R19: adds the main row of an instruction that takes the expression at a place.
pub fn row_value(
    file: &[u8],
    shape: Shape,
    code: ValueCode,
    at: usize,
    table: &mut LentTable,
) -> Result<Row, Refusal>
    requires given { Given shape table.old }
    requires expression { (at ≤ length file.now) × Legible file.now (vars (shape_of shape)) (at + 64) at }
    ensures kept { Kept table.old table.new }
    ensures made { (x : Read Exp) → Reads file.now (vars (shape_of shape)) (at + 64) at x
        → Made (cells (shape_of shape)) table.old (main_of (shape_of shape) (on_expr code x.got)) result table.new }
{
    let x = Row::of_cell(shape.flag());
    let grown = add_expression(file, shape.vars(), at + 64, at, table)?;
    let y = grown.row;
    match code {
        ValueCode::Load | ValueCode::Epush => Ok(y),
        ValueCode::And => add(table, Node::Two(true, x, y)),
        ValueCode::Or => add(table, Node::Two(false, x, y)),
    }
}

// R18: adds the main row of an instruction that takes the variable b.
pub fn row_variable(
    shape: Shape,
    code: VariableCode,
    b: Cell,
    table: &mut LentTable,
) -> Result<Row, Refusal>
    requires given { Given shape table.old }
    requires variable { b.0 < vars (shape_of shape) }
    ensures kept { Kept table.old table.new }
    ensures made { Made (cells (shape_of shape)) table.old (main_of (shape_of shape) (on_variable code b.0)) result table.new }
{
    let x = Row::of_cell(shape.flag());
    let y = Row::of_cell(b);
    match code {
        VariableCode::Store => Ok(x),
        VariableCode::Set => add(table, Node::Two(false, x, y)),
        VariableCode::Res | VariableCode::Fedge => {
            let not = add(table, Node::Not(x))?;
            add(table, Node::Two(true, not, y))
        }
        VariableCode::Redge => {
            let not = add(table, Node::Not(y))?;
            add(table, Node::Two(true, x, not))
        }
    }
}
