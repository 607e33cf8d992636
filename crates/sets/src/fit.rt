// Whether the rule could have appended a row where it stands (R43).
ghost use Rattle.std.specs.Prelude.{◌≡◌, suc, ◌+◌, ◌-◌, ◌≤◌, eqb, length};
ghost use Rattle.rules.specs.Rows as R;
ghost use Rattle.rules.specs.Sets.{operands};
ghost use Rattle.rules.specs.SetFile as F;
ghost use Rattle.laws.specs.Canonical.{Below};
ghost use Rattle.base.specs.Answers.{shape_of};
ghost use Rattle.rows.specs.Entries.{node_row, plan_row};
ghost use Rattle.sets.specs.Judging.{spells, rows_of, Among, FitBefore, Made, same_at};

use crate::read::SetFile;
use base::bytes::word;
use base::kinds::Row;
use base::shape::Shape;
use rows::node::{Node, last_operand, same_node};
use rows::rule::{Plan, plan_not, plan_two};

// R43: whether the operands of a row are earlier than row k.
#[tactic(auto, unfolding(rules::specs::SetFile::all_below))]
fn earlier(node: Node, k: Row) -> bool
    ensures { result ≡ F.all_below k.0 (operands (node_row node)) }
{
    match node {
        Node::Leaf(_) => true,
        Node::Not(a) => a < k,
        Node::Two(_, a, b) => a < k && b < k,
    }
}

// R28, R29: the rule's plan for an operation over the rows of a file.
fn plan_in(set: &SetFile<'_>, node: Node) -> Plan
    requires { Below (rows_of set.now) (node_row node) }
    ensures { plan_row result ≡ R.plan (spells set.now).tab (node_row node) }
{
    match node {
        Node::Leaf(i) => Plan::Have(i),
        Node::Not(a) => plan_not(a, set.row(a)),
        Node::Two(o, a, b) => plan_two(o, a, b),
    }
}

// R43: whether a plan is to make that very row.
fn makes(plan: Plan, node: Node) -> bool
    ensures { result ≡ F.makes (plan_row plan) (node_row node) }
{
    match plan {
        Plan::Have(_) => false,
        Plan::Make(made) => same_node(made, node),
    }
}

// R41: how many operation rows stand up to row i.
pub fn rows_to(shape: Shape, i: Row) -> usize
    ensures { result ≡ suc i.0 - F.leaves (shape_of shape) }
{
    let leaves = 2 + shape.cells();
    let next = i.0 as usize + 1;
    if next < leaves {
        return 0;
    }
    next - leaves
}

// R42: whether the five bytes at two places are the same.
fn same_bytes(file: &[u8], p: usize, q: usize) -> bool
    requires p_in_bounds { p + 5 ≤ length file.now }
    requires q_in_bounds { q + 5 ≤ length file.now }
    ensures { result ≡ same_at file.now p q }
{
    if word(file, p + 3) != word(file, q + 3) {
        return false;
    }
    if word(file, p + 1) != word(file, q + 1) {
        return false;
    }
    file[p] == file[q]
}

// R43: whether no row before row k is equal to it. The search begins after row k's larger operand: a row that has that operand too
// stands after it.
fn none_equal(set: &SetFile<'_>, last: Row, k: Row) -> bool
    requires { Made set.now k.0 last.0 }
    ensures { let t = (spells set.now).tab in result ≡ eqb (R.find t (R.row_at t k.0)) k.0 }
{
    let first = set.place(0);
    let n = rows_to(set.shape, k) - 1;
    let at = first + 5 * n;
    for j in rows_to(set.shape, last)..n {
        if same_bytes(set.file, first + 5 * j, at) {
            return false;
        }
    }
    true
}

// R43: whether row k fits: operands earlier, nothing folds, no equal row before it.
pub fn row_fits(set: &SetFile<'_>, k: Row) -> bool
    requires among { Among set.now k.0 }
    requires fit_before { FitBefore set.now k.0 }
    ensures { result ≡ F.fits (spells set.now).tab k.0 }
{
    let node = set.row(k);
    if !earlier(node, k) {
        return false;
    }
    if !makes(plan_in(set, node), node) {
        return false;
    }
    none_equal(set, last_operand(node), k)
}
