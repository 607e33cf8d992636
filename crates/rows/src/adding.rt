// The table in a lent slice: an operation is planned, and then settled by the first equal row or an append (R28 to R30, R53, R54).
ghost use Rattle.std.specs.Prelude.{◌≡◌, map, ◌-◌, ◌≤◌, ◌<◌, length, get_or, eqb};
ghost use Rattle.rules.specs.Lists.{seek};
ghost use Rattle.rules.specs.Rows.{plan};
ghost use Rattle.laws.specs.Canonical.{Below};
ghost use Rattle.table.specs.Append.{Kept};
ghost use Rattle.rows.specs.Entries.{node_row, plan_row, row_of_entry};
ghost use Rattle.rows.specs.Table.{Addable, Settles, Adds};

use crate::node::{Node, entry_of, last_operand, node_at};
use crate::rule::{Plan, plan_not, plan_two};
use base::kinds::Row;
use base::refusal::Refusal;
use table::LentTable;

// R28, R29: the plan for an operation over rows that stand.
fn plan_node(rows: &[u64], node: Node) -> Plan
    requires { Below (length rows.now) (node_row node) }
    ensures { plan_row result ≡ plan (map row_of_entry rows.now) (node_row node) }
{
    match node {
        Node::Leaf(i) => Plan::Have(i),
        Node::Not(a) => plan_not(a, node_at(rows, a)),
        Node::Two(o, a, b) => plan_two(o, a, b),
    }
}

// R30: the first of the used rows from `start` on that is held by that number; or how many are used. It looks at one row after another,
// since an index needs room that is not lent.
fn find_entry(rows: &[u64], start: usize, used: usize, entry: u64) -> usize
    requires { (start ≤ used) × (used ≤ length rows.now) }
    ensures { (result ≡ seek (λ i. eqb (get_or rows.now i 0) entry) (used - start) start) × (result ≤ used) }
{
    for i in start..used {
        if rows[i] == entry {
            return i;
        }
    }
    used
}

// R30, R53, R54: the first equal row, or an append. The search starts after the larger operand, since no equal row stands earlier.
fn settle(table: &mut LentTable, node: Node) -> Result<Row, Refusal>
    requires { Addable table.old (node_row node) }
    ensures kept { Kept table.old table.new }
    ensures settles { Settles table.old node result table.new }
{
    let used = table.used();
    let entry = entry_of(node);
    let last = last_operand(node);
    let at = find_entry(table.rows(), last.0 as usize + 1, used, entry);
    if at < used {
        return Ok(Row(at as u16));
    }
    table.append(entry)?;
    Ok(Row(at as u16))
}

// R28 to R30: adds an operation, and answers its row.
pub fn add(table: &mut LentTable, node: Node) -> Result<Row, Refusal>
    requires { Addable table.old (node_row node) }
    ensures kept { Kept table.old table.new }
    ensures adds { Adds table.old node result table.new }
{
    match plan_node(table.rows(), node) {
        Plan::Have(i) => Ok(i),
        Plan::Make(n) => settle(table, n),
    }
}
