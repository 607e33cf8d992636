// New numbers for the rows that are reached (R36).
ghost use Rattle.std.specs.Prelude.{◌≡◌, ◌<◌, ◌≤◌, length, get_or};
ghost use Rattle.rules.specs.Shape.{cells};
ghost use Rattle.base.specs.Answers.{shape_of};
ghost use Rattle.rows.specs.Entries.{table_in};
ghost use Rattle.reach.specs.Tabled.{Tabled};
ghost use Rattle.reach.specs.Numbers.{numbering, number_row, number_rows, Numbered};

use crate::mark::mark_reached;
use base::kinds::Row;
use base::shape::Shape;

// The number that a row got.
pub fn number_of(numbers: &[u16], r: Row) -> Row
    requires { r.0 < length numbers.now }
    ensures { result.0 ≡ get_or numbers.now r.0 0 }
{
    let at = r.0 as usize;
    Row(numbers[at])
}

// R36: the new number of row k. A constant or cell keeps its own, a marked operation row gets the next one, any other stays 0. Answers the next number.
fn number_row(numbers: &mut [u16], leaves: usize, k: usize, next: usize) -> usize
    requires { (k < length numbers.old) × (k < 65536) × (next < 65536) }
    ensures { numbering result numbers.new ≡ number_row leaves k (numbering next numbers.old) }
{
    if k < leaves {
        numbers[k] = k as u16;
        return next;
    }
    if numbers[k] == 0 {
        return next;
    }
    numbers[k] = next as u16;
    next + 1
}

// R36: new numbers for the marked rows, in order. Answers the next number.
fn number_rows(numbers: &mut [u16], leaves: usize, used: usize) -> usize
    requires { (leaves ≤ used) × (used ≤ length numbers.old) × (used < 65536) }
    ensures { numbering result numbers.new ≡ number_rows leaves used numbers.old }
{
    let mut next = leaves;
    for k in 0..used {
        next = number_row(numbers, leaves, k, next);
    }
    next
}

// R33, R36: the numbers of the rules for the rows that the heads reach. Answers the next number.
pub fn number_reached(
    shape: Shape,
    heads: &[u16],
    rows: &[u64],
    used: usize,
    numbers: &mut [u16],
) -> usize
    requires { Tabled (shape_of shape) heads.now rows.now used (length numbers.old) }
    ensures { Numbered (cells (shape_of shape)) (table_in rows.now used) heads.now used
        (numbering result numbers.new) }
{
    mark_reached(shape, heads, rows, used, numbers);
    number_rows(numbers, 2 + shape.cells(), used)
}
