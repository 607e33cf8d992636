// Choice by a row between two sets over one table (R35).
#![tactic(auto)]

ghost use Rattle.std.specs.Prelude.{length};
ghost use Rattle.rules.specs.Sets as S;
ghost use Rattle.table.specs.Append.{Kept};
ghost use Rattle.choice.specs.Choosing.{Choosable, Picks, Choosing, Chooses};

use base::kinds::Row;
use base::refusal::Refusal;
use rows::adding::add;
use rows::node::Node;
use table::LentTable;

// R35: four operations that give x if row f is 1, else y.
fn four_rows(table: &mut LentTable, f: Row, x: Row, y: Row) -> Result<Row, Refusal>
    requires { Choosable table.old f.0 x.0 y.0 }
    ensures kept { Kept table.old table.new }
    ensures picks { Picks S.four_rows table.old f.0 x.0 y.0 result table.new }
{
    let not_f = add(table, Node::Not(f))?;
    let left = add(table, Node::Two(true, f, x))?;
    let right = add(table, Node::Two(true, not_f, y))?;
    add(table, Node::Two(false, left, right))
}

// R35: one cell's choice by row f of the heads x and y: equal heads are kept.
fn choose(table: &mut LentTable, f: Row, x: Row, y: Row) -> Result<Row, Refusal>
    requires { Choosable table.old f.0 x.0 y.0 }
    ensures kept { Kept table.old table.new }
    ensures picks { Picks S.choose table.old f.0 x.0 y.0 result table.new }
{
    if x == y {
        return Ok(x);
    }
    four_rows(table, f, x, y)
}

// R35: the choice by row f of the sets with heads `made` and y, over one table, cells in order.
pub fn choose_heads(
    f: Row,
    y: &[u16],
    table: &mut LentTable,
    made: &mut [u16],
) -> Result<(), Refusal>
    requires { Choosing (length made.old) f.0 y.now table.old made.old }
    ensures kept { Kept table.old table.new }
    ensures chooses { Chooses (length made.old) f.0 y.now table.old made.old result table.new made.new }
{
    for (c, x) in made.iter_mut().enumerate() {
        let head = choose(table, f, Row(*x), Row(y[c]))?;
        *x = head.0;
    }
    Ok(())
}
