// A row by value, and as the one number that a lent slice holds of it (R26).
ghost use Rattle.std.specs.Prelude.{◌≡◌, ◌<◌, length, get_or};
ghost use Rattle.rules.specs.Rows.{same};
ghost use Rattle.laws.specs.Search.{last_of};
ghost use Rattle.rows.specs.Entries.{node_row, entry_with, entry, row_of_entry, Narrow};

use base::kinds::Row;

// R26: the constant or cell of that number; NOT of a row; AND (true) or OR (false) of two. The bool is that of `Rows.bin`.
#[derive(Clone, Copy)]
pub enum Node {
    Leaf(Row),
    Not(Row),
    Two(bool, Row, Row),
}

// The number with these three parts. The kind stays the number that a slice holds: an enum would be turned into it in the same line.
fn entry_with(kind: u64, left: Row, right: Row) -> u64
    requires { kind < 4 }
    ensures { (result ≡ entry_with kind left.0 right.0) × (left.0 < 65536) × (right.0 < 65536) }
{
    kind * 4294967296 + left.0 as u64 * 65536 + right.0 as u64
}

// The number that holds a row. It and `node_of` are no `From`, since their clauses are those of the definitions here.
pub fn entry_of(node: Node) -> u64
    ensures { (result ≡ entry (node_row node)) × Narrow (node_row node) }
{
    match node {
        Node::Leaf(i) => entry_with(0, i, Row::FALSE),
        Node::Not(a) => entry_with(1, a, Row::FALSE),
        Node::Two(o, a, b) => {
            if o {
                entry_with(2, a, b)
            } else {
                entry_with(3, a, b)
            }
        }
    }
}

// The row that a number holds.
pub fn node_of(n: u64) -> Node
    ensures { node_row result ≡ row_of_entry n }
{
    let left = Row((n / 65536 % 65536) as u16);
    let right = Row((n % 65536) as u16);
    match n / 4294967296 {
        0 => Node::Leaf(left),
        1 => Node::Not(left),
        2 => Node::Two(true, left, right),
        _ => Node::Two(false, left, right),
    }
}

// R30: whether two rows are the same.
pub fn same_node(a: Node, b: Node) -> bool
    ensures { result ≡ same (node_row a) (node_row b) }
{
    entry_of(a) == entry_of(b)
}

// R29: the larger operand of a row that the rule makes.
pub fn last_operand(node: Node) -> Row
    ensures { result.0 ≡ last_of (node_row node) }
{
    match node {
        Node::Leaf(_) => Row::FALSE,
        Node::Not(a) => a,
        Node::Two(_, _, b) => b,
    }
}

// R26: the row of that number in a lent slice.
pub fn node_at(rows: &[u64], r: Row) -> Node
    requires { r.0 < length rows.now }
    ensures { node_row result ≡ row_of_entry (get_or rows.now r.0 0) }
{
    let at = r.0 as usize;
    node_of(rows[at])
}
