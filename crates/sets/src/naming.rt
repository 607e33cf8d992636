// Whether anything names a row (R44).
ghost use Rattle.std.specs.Prelude.{◌≡◌, suc, ◌+◌, ◌≤◌, length, drop};
ghost use mathlib.Core.List.{flat_map};
ghost use Rattle.rules.specs.Lists.{elem};
ghost use Rattle.rules.specs.Sets.{operands};
ghost use Rattle.rules.specs.SetFile.{row_in, named};
ghost use Rattle.rows.specs.Entries.{node_row};
ghost use Rattle.sets.specs.Judging.{spells, Among};

use crate::fit::rows_to;
use crate::read::{SetFile, node_in};
use base::bytes::word;
use base::kinds::{Cell, Row};
use rows::node::Node;

// R44: whether row k is a head.
fn is_head(set: &SetFile<'_>, k: Row) -> bool
    ensures { result ≡ elem k.0 (spells set.now).heads }
{
    let cells = set.shape.cells();
    for c in 0..cells {
        if set.head(Cell(c as u16)) == k {
            return true;
        }
    }
    false
}

// R26: whether a row names row k.
#[tactic(auto, unfolding(rules::specs::Lists::elem))]
fn names(node: Node, k: Row) -> bool
    ensures { result ≡ elem k.0 (operands (node_row node)) }
{
    match node {
        Node::Leaf(_) => false,
        Node::Not(a) => k == a,
        Node::Two(_, a, b) => k == a || k == b,
    }
}

// R26, R42: whether the row whose five bytes begin at a place names row k.
fn names_at(file: &[u8], at: usize, k: Row) -> bool
    requires { at + 5 ≤ length file.now }
    ensures { result ≡ elem k.0 (operands (row_in file.now at)) }
{
    let x = k.0 as usize;
    if word(file, at + 1) != x {
        if word(file, at + 3) != x {
            return false;
        }
    }
    names(node_in(file, at), k)
}

// R44: whether a later row names row k.
fn is_operand(set: &SetFile<'_>, k: Row) -> bool
    requires { Among set.now k.0 }
    ensures { result ≡ elem k.0 (flat_map operands (drop (suc k.0) (spells set.now).tab)) }
{
    let first = set.place(0);
    let rows = set.rows();
    for j in rows_to(set.shape, k)..rows {
        if names_at(set.file, first + 5 * j, k) {
            return true;
        }
    }
    false
}

// R44: whether a head or a later row names row k.
pub fn row_named(set: &SetFile<'_>, k: Row) -> bool
    requires { Among set.now k.0 }
    ensures { result ≡ named (spells set.now).tab (spells set.now).heads k.0 }
{
    if is_head(set, k) {
        return true;
    }
    is_operand(set, k)
}
