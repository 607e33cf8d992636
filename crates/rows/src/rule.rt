// The rule's plan for an operation (R28, R29).
ghost use Rattle.std.specs.Prelude.{◌≡◌, min, max};
ghost use Rattle.rules.specs.Rows as R;
ghost use Rattle.rows.specs.Entries.{node_row, plan_row};

use crate::node::Node;
use base::kinds::Row;

// R28 to R30: the result is this row already; or this row is looked for, and appended if there is none.
#[derive(Clone, Copy)]
pub enum Plan {
    Have(Row),
    Make(Node),
}

// R28: NOT of row a, which is `node`.
pub fn plan_not(a: Row, node: Node) -> Plan
    ensures { plan_row result ≡ R.plan_not a.0 (node_row node) }
{
    if a == Row::FALSE {
        return Plan::Have(Row::TRUE);
    }
    if a == Row::TRUE {
        return Plan::Have(Row::FALSE);
    }
    match node {
        Node::Leaf(_) => Plan::Make(Node::Not(a)),
        Node::Not(b) => Plan::Have(b),
        Node::Two(_, _, _) => Plan::Make(Node::Not(a)),
    }
}

// R29: the constant that decides AND (true) or OR (false).
fn absorbing(o: bool) -> Row
    ensures { result.0 ≡ R.absorbing o }
{
    if o { Row::FALSE } else { Row::TRUE }
}

// R29: the constant that leaves the other operand.
fn neutral(o: bool) -> Row
    ensures { result.0 ≡ R.neutral o }
{
    absorbing(!o)
}

// R29: the operation over two rows in rising order.
fn make_two(o: bool, a: Row, b: Row) -> Node
    ensures { node_row result ≡ R.bin o (min a.0 b.0) (max a.0 b.0) }
{
    Node::Two(o, a.min(b), a.max(b))
}

// R29: AND or OR of the rows a and b.
#[tactic(auto, unfolding(rules::specs::Rows::plan_bin))]
pub fn plan_two(o: bool, a: Row, b: Row) -> Plan
    ensures { (p q : R.Row) → plan_row result ≡ R.plan_bin o a.0 p b.0 q }
{
    let decides = absorbing(o);
    let leaves = neutral(o);
    if a == decides {
        return Plan::Have(a);
    }
    if b == decides {
        return Plan::Have(b);
    }
    if a == leaves {
        return Plan::Have(b);
    }
    if b == leaves {
        return Plan::Have(a);
    }
    if a == b {
        return Plan::Have(a);
    }
    Plan::Make(make_two(o, a, b))
}
