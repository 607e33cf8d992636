// The heads of an instruction's own set: constants, cells, and the one row that was added (R16 to R19, R37). The shape goes
// with a `requires` here: a struct that holds the fact was tried, and is no plainer, since the check finds it at each call.
ghost use Rattle.std.specs.Prelude.{◌≡◌, ◌≤◌, ◌<◌, length};
ghost use Rattle.base.specs.Answers.{shape_of};
ghost use Rattle.rules.specs.Shape.{vars, cells};
ghost use Rattle.rules.specs.Expr.{Exp};
ghost use Rattle.reader.specs.Codes.{alone_of, on_expr, on_variable};
ghost use Rattle.laws.specs.Own.{simple_row};
ghost use Rattle.own.specs.declared.heads.Move.TheVariants.{Popped};
ghost use Rattle.own.specs.Changes.{moved_by, moved_heads, Inside, One, Changes, changed};

use base::kinds::{Cell, Row};
use base::shape::Shape;
use reader::code::{AloneCode, ValueCode, VariableCode};

// R16 to R19: what becomes of the stack: each cell is kept, gets what the cell before it has, what the cell after it has, or 0.
#[derive(Clone, Copy)]
pub enum Move {
    Kept,
    Pushed,
    Popped,
    Reset,
}

// R16 to R19: what an instruction gives the cells: its move of the stack, then one cell gets what another has, then the main cell
// gets the row that was added.
#[derive(Clone, Copy)]
pub struct Change {
    pub stack: Move,
    pub source: Cell,
    pub target: Cell,
    pub main: Cell,
}

// R16, R19: the change by a move of the stack and the main cell alone.
fn change_of(stack: Move, main: Cell) -> Change
    ensures { One result stack main }
{
    Change {
        stack: stack,
        source: main,
        target: main,
        main: main,
    }
}

// R17, R19: the change of an instruction that stands alone; END's is INIT's.
pub fn change_alone(shape: Shape, code: AloneCode) -> Change
    requires { Inside shape }
    ensures { Changes (shape_of shape) (alone_of code) result }
{
    let f = shape.flag();
    let e = Cell(f.0 + 1);
    match code {
        AloneCode::Init | AloneCode::End => change_of(Move::Reset, f),
        AloneCode::Not | AloneCode::Tand | AloneCode::Tor => change_of(Move::Kept, f),
        AloneCode::Push | AloneCode::Dup => change_of(Move::Pushed, e),
        AloneCode::Pop | AloneCode::Drop => change_of(Move::Popped, f),
        AloneCode::Fswp => Change {
            stack: Move::Kept,
            source: f,
            target: e,
            main: f,
        },
        AloneCode::Eswp => Change {
            stack: Move::Kept,
            source: e,
            target: Cell(f.0 + 2),
            main: e,
        },
    }
}

// R17, R19: the change of an instruction that takes an expression.
pub fn change_value(shape: Shape, code: ValueCode) -> Change
    requires { Inside shape }
    ensures { (x : Exp) → Changes (shape_of shape) (on_expr code x) result }
{
    let f = shape.flag();
    match code {
        ValueCode::Load | ValueCode::And | ValueCode::Or => change_of(Move::Kept, f),
        ValueCode::Epush => change_of(Move::Pushed, Cell(f.0 + 1)),
    }
}

// R18: the change of an instruction that takes the variable b.
pub fn change_variable(shape: Shape, code: VariableCode, b: Cell) -> Change
    requires inside { Inside shape }
    requires variable { b.0 < vars (shape_of shape) }
    ensures { Changes (shape_of shape) (on_variable code b.0) result }
{
    let f = shape.flag();
    let main = match code {
        VariableCode::Store | VariableCode::Set | VariableCode::Res => b,
        VariableCode::Redge | VariableCode::Fedge => f,
    };
    Change {
        stack: Move::Kept,
        source: f,
        target: b,
        main: main,
    }
}

// R19: the row of what the cell after c has, or of 0 where c is the last.
fn row_after(shape: Shape, c: Cell) -> Row
    requires inside { Inside shape }
    requires shape_bound { (vars (shape_of shape) < c.0) × (c.0 < cells (shape_of shape)) }
    ensures { result.0 ≡ simple_row (moved_by (shape_of shape) Popped c.0) }
{
    if c.0 as usize + 1 < shape.cells() {
        return Row::of_cell(Cell(c.0 + 1));
    }
    Row::FALSE
}

// R16 to R19: the row of what cell c gets by a move of the stack.
fn head_by(shape: Shape, stack: Move, c: Cell) -> Row
    requires inside { Inside shape }
    requires c_bound { c.0 < cells (shape_of shape) }
    ensures { result.0 ≡ simple_row (moved_by (shape_of shape) stack c.0) }
{
    if c.0 as usize <= shape.vars() {
        return Row::of_cell(c);
    }
    match stack {
        Move::Kept => Row::of_cell(c),
        Move::Pushed => Row::of_cell(Cell(c.0 - 1)),
        Move::Popped => row_after(shape, c),
        Move::Reset => Row::FALSE,
    }
}

// R16 to R19: the heads by a move of the stack. `rewrite` and `carry` have such a loop too; the one line in it is what differs.
fn move_heads(shape: Shape, stack: Move, made: &mut [u16])
    requires inside { Inside shape }
    requires made_len { length made.old ≡ cells (shape_of shape) }
    ensures { made.new ≡ moved_heads (shape_of shape) stack }
{
    for (c, head) in made.iter_mut().enumerate() {
        *head = head_by(shape, stack, Cell(c as u16)).0;
    }
}

// R16 to R19: the heads by a change, with the row of the main cell.
pub fn put_heads(shape: Shape, change: Change, row: Row, made: &mut [u16])
    requires inside { Inside shape }
    requires made_len { length made.old ≡ cells (shape_of shape) }
    requires source_bound { (change.source.0 < cells (shape_of shape)) × (change.target.0 < cells (shape_of shape))
        × (change.main.0 < cells (shape_of shape)) }
    ensures { made.new ≡ changed (shape_of shape) change row.0 }
{
    let stack = change.stack;
    move_heads(shape, stack, made);
    let source = Row::of_cell(change.source);
    let target = change.target.0 as usize;
    made[target] = source.0;
    let main = change.main.0 as usize;
    made[main] = row.0;
}
