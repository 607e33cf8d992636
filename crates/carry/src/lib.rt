// The rows of the first set copied, and those of the second rewritten onto them (R34, R40).
#![tactic(auto)]

ghost use Rattle.std.specs.Prelude.{◌≡◌, ◌+◌, ◌≤◌, ◌<◌, length, Ok};
ghost use Rattle.rules.specs.SetFile.{leaves};
ghost use Rattle.base.specs.Answers.{shape_of};
ghost use Rattle.laws.specs.Canonical.{Operands};
ghost use Rattle.rows.specs.Entries.{node_row};
ghost use Rattle.table.specs.Append.{Kept};
ghost use Rattle.rows.specs.Table.{Holds};
ghost use Rattle.sets.specs.Spelt.{set_in, rows_in};
ghost use Rattle.carry.specs.Carrying.{Copied, Known, new_number, renumbered, Carrying, Carries, Moving, new_heads};

use base::bytes::word;
use base::kinds::{Cell, Row};
use base::refusal::Refusal;
use base::shape::Shape;
use rows::adding::add;
use rows::node::{Node, entry_of};
use sets::read::{head_in, row_in};
use table::LentTable;

// The rows of a set file, appended to an empty table one after another. With room for all of them it does not fail.
pub fn copy_rows(
    file: &[u8],
    shape: Shape,
    total: usize,
    table: &mut LentTable,
) -> Result<(), Refusal>
    requires { Copied file.now shape total table.old }
    ensures room { total ≤ length table.old.rows.now → result ≡ Ok tt }
    ensures kept { Kept table.old table.new }
    ensures holds { Holds table.old result table.new (set_in file.now).tab }
{
    for i in 0..total {
        table.append(entry_of(row_in(file, shape, Row(i as u16))))?;
    }
    Ok(())
}

// R34: the number that row i of the second set gets: a constant its own, a cell the first set's head, an operation what was noted.
fn number_of(first: &[u8], shape: Shape, numbers: &[u16], i: Row) -> Row
    requires { Known first.now (leaves (shape_of shape)) (length numbers.now) i.0 }
    ensures { result.0 ≡ new_number first.now (leaves (shape_of shape)) numbers.now i.0 }
{
    let at = i.0 as usize;
    if at < 2 {
        return i;
    }
    let leaves = 2 + shape.cells();
    if at < leaves {
        return head_in(first, Cell((at - 2) as u16));
    }
    Row(numbers[at - leaves])
}

// R34: a row with its operands renumbered.
fn renumber(first: &[u8], shape: Shape, numbers: &[u16], node: Node) -> Node
    requires { Operands (Known first.now (leaves (shape_of shape)) (length numbers.now)) (node_row node) }
    ensures { node_row result ≡ renumbered first.now (leaves (shape_of shape)) numbers.now (node_row node) }
{
    match node {
        Node::Leaf(i) => Node::Leaf(i),
        Node::Not(a) => Node::Not(number_of(first, shape, numbers, a)),
        Node::Two(o, a, b) => Node::Two(
            o,
            number_of(first, shape, numbers, a),
            number_of(first, shape, numbers, b),
        ),
    }
}

// R34: rewrites operation row j of the second set, and notes its number.
fn carry_row(
    first: &[u8],
    second: &[u8],
    shape: Shape,
    j: usize,
    table: &mut LentTable,
    numbers: &mut [u16],
) -> Result<(), Refusal>
    requires { Carrying first.now second.now shape table.old numbers.old j × (j < rows_in second.now) }
    ensures kept { Kept table.old table.new }
    ensures carries { Carries first.now second.now shape table.old result table.new numbers.new (j + 1) }
{
    let at = 2 + shape.cells() + j;
    let node = row_in(second, shape, Row(at as u16));
    let row = add(table, renumber(first, shape, numbers, node))?;
    numbers[j] = row.0;
    Ok(())
}

// R34: rewrites all operation rows of the second set, lowest first.
pub fn carry_rows(
    first: &[u8],
    second: &[u8],
    shape: Shape,
    table: &mut LentTable,
    numbers: &mut [u16],
) -> Result<(), Refusal>
    requires { Carrying first.now second.now shape table.old numbers.old 0 }
    ensures kept { Kept table.old table.new }
    ensures carries { Carries first.now second.now shape table.old result table.new numbers.new (rows_in second.now) }
{
    let count = word(second, 5);
    for j in 0..count {
        carry_row(first, second, shape, j, table, numbers)?;
    }
    Ok(())
}

// R34: the heads of the second set, renumbered. `own` and `rewrite` have such a loop too; the one line in it is what differs.
pub fn move_heads(first: &[u8], second: &[u8], shape: Shape, numbers: &[u16], heads: &mut [u16])
    requires { Moving first.now second.now shape numbers.now (length heads.old) }
    ensures { heads.new ≡ new_heads first.now second.now shape numbers.now }
{
    for (c, x) in heads.iter_mut().enumerate() {
        let head = number_of(first, shape, numbers, head_in(second, Cell(c as u16)));
        *x = head.0;
    }
}
