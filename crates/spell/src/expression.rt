// The rows of an expression, added to a table by the rule (R11, R37).
ghost use Rattle.std.specs.Prelude.{◌≡◌, ◌<◌};
ghost use Rattle.table.specs.Append.{Kept};
ghost use Rattle.spell.specs.Spelling.{leaf_row, Spelling, Spells};

use base::kinds::{Cell, Row};
use base::refusal::Refusal;
use reader::read_at;
use rows::adding::add;
use rows::node::Node;
use table::LentTable;

// The row of an expression, and the place after the expression.
#[derive(Clone, Copy)]
pub struct Grown {
    pub row: Row,
    pub next: usize,
}

// R11, R26: the row of the variable or constant that a byte is.
fn leaf_row(b: u8) -> Row
    requires { b < 252 }
    ensures { result.0 ≡ leaf_row b }
{
    if b < 250 {
        return Row::of_cell(Cell::from(b));
    }
    Row(b as u16 - 250)
}

// R11, R37: adds the rows of the expression at a place of an accepted program, which ends by `stop`: left operand, right operand,
// then the outer row.
pub fn add_expression(
    file: &[u8],
    vars: usize,
    stop: usize,
    at: usize,
    table: &mut LentTable,
) -> Result<Grown, Refusal>
    requires { Spelling file.now vars stop at table.old }
    ensures kept { Kept table.old table.new }
    ensures spells { Spells file.now vars stop at table.old result table.new }
{
    let b = read_at(file, at);
    if b < 252 {
        return Ok(Grown {
            row: leaf_row(b),
            next: at + 1,
        });
    }
    let x = add_expression(file, vars, stop, at + 1, table)?;
    if b == 252 {
        let row = add(table, Node::Not(x.row))?;
        return Ok(Grown { row, next: x.next });
    }
    let y = add_expression(file, vars, stop, x.next, table)?;
    let row = add(table, Node::Two(b == 253, x.row, y.row))?;
    Ok(Grown { row, next: y.next })
}
