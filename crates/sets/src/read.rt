// The parts of a set file, read where they stand (R41, R42).
ghost use Rattle.std.specs.Prelude.{◌≡◌, ◌+◌, ◌*◌, ◌≤◌, ◌<◌, length};
ghost use Rattle.rules.specs.Edition.{old};
ghost use Rattle.rules.specs.Lists.{number_at};
ghost use Rattle.rules.specs.SetFile.{head_at, row_place, row_in};
ghost use Rattle.base.specs.Answers.{shape_of};
ghost use Rattle.rows.specs.Entries.{node_row};
ghost use Rattle.sets.specs.Spelt.{spelt_row, Inside, Whole};

use base::bytes::word;
use base::kinds::{Cell, Row};
use base::shape::Shape;
use program::header::shape_at;
use rows::node::Node;

// R41: a file and a shape. It is as long as its count says, and counts few enough rows.
#[derive(Clone, Copy)]
pub struct SetFile<'a> {
    pub file: &'a [u8],
    pub shape: Shape,
    pub ghost whole: { Whole file.now (shape_of shape) },
}

impl<'a> SetFile<'a> {
    ghost use Rattle.std.specs.Prelude.{get_or};
    ghost use Rattle.rules.specs.Shape.{cells};
    ghost use Rattle.rules.specs.SetFile.{leaves};
    ghost use Rattle.rules.specs.Rows.{row_at};
    ghost use Rattle.sets.specs.Spelt.{rows_in, set_in, Taken};
    ghost use Rattle.sets.specs.Judging.{spells, rows_of};

    // R49: an accepted file, with its shape.
    pub fn accepted(file: &'a [u8]) -> SetFile<'a>
        requires { Taken file.now }
        ensures { spells result ≡ set_in file.now }
    {
        SetFile {
            file,
            shape: shape_at(file),
        }
    }

    // R41: how many operation rows there are.
    pub fn rows(&self) -> usize
        ensures { result ≡ rows_in self.now.file.now }
    {
        word(self.file, 5)
    }

    // R26: how many rows come before the operation rows.
    pub fn leaves(&self) -> usize
        ensures { result ≡ leaves (shape_of self.now.shape) }
    {
        2 + self.shape.cells()
    }

    // R26: how many rows the table has.
    pub fn total(&self) -> usize
        ensures { result ≡ rows_of self.now }
    {
        self.leaves() + self.rows()
    }

    // R41: where operation row j stands, counted from 0.
    pub fn place(&self, j: usize) -> usize
        requires { j ≤ rows_in self.now.file.now }
        ensures { result ≡ row_place old (shape_of self.now.shape) j }
    {
        row_place(self.shape, j)
    }

    // R31: the head of a cell.
    pub fn head(&self, c: Cell) -> Row
        requires { c.0 < cells (shape_of self.now.shape) }
        ensures { result.0 ≡ get_or (spells self.now).heads c.0 0 }
    {
        head_in(self.file, c)
    }

    // R26: row i of the table.
    pub fn row(&self, i: Row) -> Node
        requires { i.0 < rows_of self.now }
        ensures { node_row result ≡ row_at (spells self.now).tab i.0 }
    {
        row_in(self.file, self.shape, i)
    }
}

// R5: the row that the two-byte number at a place names.
fn row_word(file: &[u8], at: usize) -> Row
    requires { at + 2 ≤ length file.now }
    ensures { result.0 ≡ number_at 2 file.now at }
{
    Row(word(file, at) as u16)
}

// R41: the head of a cell.
pub fn head_in(file: &[u8], c: Cell) -> Row
    requires { head_at old c.0 + 2 ≤ length file.now }
    ensures { result.0 ≡ number_at 2 file.now (head_at old c.0) }
{
    row_word(file, 7 + 2 * (c.0 as usize))
}

// R41: where operation row j stands, counted from 0.
pub fn row_place(shape: Shape, j: usize) -> usize
    requires { j < 65536 }
    ensures { result ≡ row_place old (shape_of shape) j }
{
    7 + 2 * shape.cells() + 5 * j
}

// R42: the row whose five bytes begin at a place.
#[tactic(auto, unfolding(rules::specs::SetFile::row_in, rules::specs::SetFile::row_of))]
pub fn node_in(file: &[u8], at: usize) -> Node
    requires { at + 5 ≤ length file.now }
    ensures { node_row result ≡ row_in file.now at }
{
    let left = row_word(file, at + 1);
    let right = row_word(file, at + 3);
    match file[at] {
        1 if right == Row::FALSE => Node::Not(left),
        2 => Node::Two(true, left, right),
        3 => Node::Two(false, left, right),
        _ => Node::Leaf(Row::FALSE),
    }
}

// R26, R41: row i of the table that a file spells.
pub fn row_in(file: &[u8], shape: Shape, i: Row) -> Node
    requires { Inside file.now (shape_of shape) i.0 }
    ensures { node_row result ≡ spelt_row file.now (shape_of shape) i.0 }
{
    let at = i.0 as usize;
    let leaves = 2 + shape.cells();
    if at < leaves {
        return Node::Leaf(i);
    }
    node_in(file, row_place(shape, at - leaves))
}
