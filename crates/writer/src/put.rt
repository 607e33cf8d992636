// The parts of a set file, written at their places (R5, R7, R41, R42).
ghost use Rattle.std.specs.Prelude.{◌≡◌, ℕ, ◌+◌, ◌*◌, ◌-◌, ◌<◌, ◌≤◌, length, get_or};
ghost use mathlib.Core.List.{◌∷◌, ◌++◌, flat_map};
ghost use Rattle.rules.specs.Lists.{bytes_of};
ghost use Rattle.rules.specs.Edition.{old};
ghost use Rattle.rules.specs.Shape.{write_header};
ghost use Rattle.rules.specs.Sets.{unchanging};
ghost use Rattle.rules.specs.SetFile.{row_bytes};
ghost use Rattle.laws.specs.Canonical.{Below};
ghost use Rattle.base.specs.Answers.{shape_of};
ghost use Rattle.rows.specs.Entries.{node_row};
ghost use Rattle.writer.specs.Put.{put_at, new_heads};
ghost use Rattle.writer.specs.Kept.{kept, PutsRow, OneFits, AllFit, PutsKept};

use base::kinds::Row;
use base::shape::Shape;
use reach::number::number_of;
use rows::node::{Node, node_of};

// R5: a two-byte number.
#[tactic(auto, using(crate::specs::Put::put_part), unfolding(rules::specs::Lists::bytes_of))]
fn put_word(out: &mut [u8], at: usize, n: u16)
    requires { at + 2 ≤ length out.old }
    ensures { out.new ≡ put_at out.old at (bytes_of 2 n) }
{
    out[at..at + 2].copy_from_slice(&n.to_le_bytes());
}

// R7: the header of a set of so many operation rows.
#[tactic(auto, unfolding(crate::specs::Put::put_at, rules::specs::Lists::bytes_of, rules::specs::Shape::write_header))]
pub fn put_header(out: &mut [u8], shape: Shape, count: u16)
    requires { (7 ≤ length out.old) × (shape.depth < 256) }
    ensures { out.new ≡ put_at out.old 0 (write_header old 2 (shape_of shape) count) }
{
    out[0] = 2;
    out[1] = shape.depth as u8;
    out[2] = (shape.inputs % 256) as u8;
    out[3] = (shape.outputs % 256) as u8;
    out[4] = (shape.memory % 256) as u8;
    put_word(out, 5, count);
}

// R32, R41: the heads of the set that changes nothing.
#[tactic(auto, using(crate::specs::Put::words_none, crate::specs::Put::own_next, crate::specs::Put::own_all))]
pub fn put_own_heads(out: &mut [u8], cells: usize)
    requires { (7 + 2 * cells ≤ length out.old) × (cells < 65534) }
    ensures { out.new ≡ put_at out.old 7 (flat_map (bytes_of 2) (unchanging cells)) }
{
    for i in 0..cells {
        put_word(out, 7 + 2 * i, (2 + i) as u16);
    }
}

// R36, R41: the heads, renumbered.
#[tactic(auto, using(crate::specs::Put::words_none, crate::specs::Put::heads_next))]
pub fn put_heads(out: &mut [u8], heads: &[u16], numbers: &[u16])
    requires { (7 + 2 * length heads.now ≤ length out.old) × ((c : ℕ) → get_or heads.now c 0 < length numbers.now) }
    ensures { out.new ≡ put_at out.old 7
        (flat_map (bytes_of 2) (new_heads numbers.now heads.now)) }
{
    for (i, head) in heads.iter().enumerate() {
        let new = number_of(numbers, Row(*head));
        put_word(out, 7 + 2 * i, new.0);
    }
}

// R42: the five bytes of a row. The kind stays the byte that a file has: an enum would be turned into it in the same line.
#[tactic(auto, using(crate::specs::Put::put_five))]
fn put_parts(out: &mut [u8], at: usize, kind: u8, left: u16, right: u16)
    requires { at + 5 ≤ length out.old }
    ensures { out.new ≡ put_at out.old at (kind ∷ (bytes_of 2 left ++ bytes_of 2 right)) }
{
    out[at] = kind;
    put_word(out, at + 1, left);
    put_word(out, at + 3, right);
}

// R36, R42: a row, its operands renumbered.
fn put_row(out: &mut [u8], at: usize, node: Node, numbers: &[u16])
    requires { (at + 5 ≤ length out.old) × Below (length numbers.now) (node_row node) }
    ensures { PutsRow numbers.now node at out.old out.new }
{
    match node {
        Node::Leaf(i) => put_parts(out, at, 0, i.0, 0),
        Node::Not(a) => {
            let left = number_of(numbers, a);
            put_parts(out, at, 1, left.0, 0);
        }
        Node::Two(o, a, b) => {
            let left = number_of(numbers, a);
            let right = number_of(numbers, b);
            if o {
                put_parts(out, at, 2, left.0, right.0);
            } else {
                put_parts(out, at, 3, left.0, right.0);
            }
        }
    }
}

// R36, R42: row k, if it is kept. Answers the place after it.
#[tactic(auto, using(crate::specs::Kept::puts_none, crate::specs::Kept::puts_one))]
fn put_kept(out: &mut [u8], at: usize, rows: &[u64], k: usize, numbers: &[u16]) -> usize
    requires { OneFits rows.now numbers.now k at (length out.old) }
    ensures { PutsKept rows.now numbers.now k at out.old out.new result }
{
    if numbers[k] == 0 {
        return at;
    }
    put_row(out, at, node_of(rows[k]), numbers);
    at + 5
}

// R36, R41: the operation rows that are kept, in order.
pub fn put_rows(
    out: &mut [u8],
    at: usize,
    rows: &[u64],
    leaves: usize,
    used: usize,
    numbers: &[u16],
)
    requires { AllFit rows.now numbers.now leaves used at (length out.old) }
    ensures { out.new ≡ put_at out.old at
        (flat_map row_bytes (kept rows.now numbers.now leaves (used - leaves))) }
{
    let mut to = at;
    for k in leaves..used {
        to = put_kept(out, to, rows, k, numbers);
    }
}
