// Which rows the heads reach (R33): marks in the lent numbers, 1 for a row that is reached and 0 for one that is not.
ghost use Rattle.std.specs.Prelude.{◌≡◌, ℕ, ◌<◌, length, get_or, set};
ghost use Rattle.rules.specs.Sets.{operands};
ghost use Rattle.laws.specs.Canonical.{Below};
ghost use Rattle.base.specs.Answers.{shape_of};
ghost use Rattle.rows.specs.Entries.{node_row, table_in};
ghost use Rattle.reach.specs.Tabled.{Tabled};
ghost use Rattle.reach.specs.Marks.{mark_all, mark_from, OneMarks, Reached};

use base::kinds::Row;
use base::shape::Shape;
use rows::node::{Node, node_of};

// Marks a row.
fn mark(numbers: &mut [u16], r: Row)
    requires { r.0 < length numbers.old }
    ensures { numbers.new ≡ set numbers.old r.0 1 }
{
    let at = r.0 as usize;
    numbers[at] = 1;
}

// R33: marks the heads.
#[tactic(auto, using(crate::specs::Marks::mark_next), unfolding(crate::specs::Marks::mark_all))]
fn mark_heads(heads: &[u16], numbers: &mut [u16])
    requires { (c : ℕ) → get_or heads.now c 0 < length numbers.old }
    ensures { numbers.new ≡ mark_all heads.now numbers.old }
{
    for head in heads {
        mark(numbers, Row(*head));
    }
}

// R26, R33: marks the rows that a row names.
#[tactic(auto, unfolding(crate::specs::Marks::mark_all))]
fn mark_operands(node: Node, numbers: &mut [u16])
    requires { Below (length numbers.old) (node_row node) }
    ensures { numbers.new ≡ mark_all (operands (node_row node)) numbers.old }
{
    match node {
        Node::Leaf(_) => {}
        Node::Not(a) => mark(numbers, a),
        Node::Two(_, a, b) => {
            mark(numbers, b);
            mark(numbers, a);
        }
    }
}

// R33: marks the rows that row k names, if it is marked itself.
#[tactic(auto, unfolding(crate::specs::Marks::mark_from))]
fn mark_from(rows: &[u64], k: usize, numbers: &mut [u16])
    requires { OneMarks rows.now k numbers.old }
    ensures { numbers.new ≡ mark_from rows.now k numbers.old }
{
    if numbers[k] == 0 {
        return;
    }
    mark_operands(node_of(rows[k]), numbers);
}

// R33: marks exactly the rows that the heads reach, from the highest down. Constants and cells name no rows.
pub fn mark_reached(shape: Shape, heads: &[u16], rows: &[u64], used: usize, numbers: &mut [u16])
    requires { Tabled (shape_of shape) heads.now rows.now used (length numbers.old) }
    ensures { Reached (table_in rows.now used) heads.now numbers.new }
{
    numbers.fill(0);
    mark_heads(heads, numbers);
    let leaves = 2 + shape.cells();
    for k in (leaves..used).rev() {
        mark_from(rows, k, numbers);
    }
}
