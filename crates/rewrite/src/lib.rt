// One set after another over one table in a lent slice (R34): the second set's rows are carried to their own table.
#![tactic(auto)]

ghost use Rattle.std.specs.Prelude.{◌≡◌, ◌∷◌, map, ◌+◌, ◌<◌, length, get_or};
ghost use Rattle.base.specs.Answers.{shape_of};
ghost use Rattle.table.specs.Append.{Kept};
ghost use Rattle.rows.specs.Entries.{node_row};
ghost use Rattle.rewrite.specs.Carrying.{Fits, Puts, Turn, Turns, Start, Carries, Moving};
ghost use Rattle.rewrite.specs.Follow.{Following, Follows};

use base::kinds::Row;
use base::refusal::Refusal;
use base::shape::Shape;
use reach::mark::mark_reached;
use reach::number::number_of;
use rows::adding::add;
use rows::node::{Node, node_of};
use table::LentTable;

// R34: what a constant or cell becomes: a constant itself, a cell the first set's head.
fn head_of(x: &[u16], i: Row) -> Row
    requires { i.0 < 2 + length x.now }
    ensures { result.0 ≡ get_or (0 ∷ 1 ∷ x.now) i.0 0 }
{
    let at = i.0 as usize;
    if at < 2 {
        return i;
    }
    Row(x[at - 2])
}

// R34: carries a row that is reached: a constant stays, a cell becomes the first set's head, an operation is added with its
// operands renumbered.
fn carry_node(x: &[u16], table: &mut LentTable, numbers: &[u16], node: Node) -> Result<Row, Refusal>
    requires { Fits x.now table.old numbers.now (node_row node) }
    ensures kept { Kept table.old table.new }
    ensures puts { Puts x.now table.old numbers.now (node_row node) result table.new }
{
    match node {
        Node::Leaf(i) => Ok(head_of(x, i)),
        Node::Not(a) => add(table, Node::Not(number_of(numbers, a))),
        Node::Two(o, a, b) => add(
            table,
            Node::Two(o, number_of(numbers, a), number_of(numbers, b)),
        ),
    }
}

// R34: carries row k if it is marked, and notes its number in place of the mark.
fn carry_row(x: &[u16], k: usize, table: &mut LentTable, numbers: &mut [u16]) -> Result<(), Refusal>
    requires { Turn x.now table.old numbers.old k }
    ensures kept { Kept table.old table.new }
    ensures turns { Turns x.now table.old numbers.old k result table.new numbers.new }
{
    if numbers[k] == 0 {
        return Ok(());
    }
    let node = node_of(table.rows()[k]);
    let row = carry_node(x, table, numbers, node)?;
    numbers[k] = row.0;
    Ok(())
}

// R34: carries the rows that are marked, lowest first.
fn carry_rows(x: &[u16], table: &mut LentTable, numbers: &mut [u16]) -> Result<(), Refusal>
    requires { Start x.now table.old numbers.old }
    ensures kept { Kept table.old table.new }
    ensures carries { Carries x.now table.old numbers.old result table.new numbers.new }
{
    let used = table.used();
    for k in 0..used {
        carry_row(x, k, table, numbers)?;
    }
    Ok(())
}

// R34: the heads, renumbered. `own` and `carry` have such a loop too; the one line in it is what differs.
fn move_heads(numbers: &[u16], y: &[u16], made: &mut [u16])
    requires { Moving numbers.now y.now (length made.old) }
    ensures { made.new ≡ map (λ h. get_or numbers.now h 0) y.now }
{
    for (c, x) in made.iter_mut().enumerate() {
        let head = number_of(numbers, Row(y[c]));
        *x = head.0;
    }
}

// R34: the set with heads y after the set with heads `made`, over one table.
pub fn follow(
    shape: Shape,
    y: &[u16],
    table: &mut LentTable,
    numbers: &mut [u16],
    made: &mut [u16],
) -> Result<(), Refusal>
    requires { Following (shape_of shape) y.now table.old (length numbers.old) made.old }
    ensures kept { Kept table.old table.new }
    ensures follows { Follows (shape_of shape) y.now table.old (length numbers.old) made.old result table.new made.new }
{
    mark_reached(shape, y, table.rows(), table.used(), numbers);
    carry_rows(made, table, numbers)?;
    move_heads(numbers, y, made);
    Ok(())
}
