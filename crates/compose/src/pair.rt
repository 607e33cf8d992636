// Composes two accepted files (R40, R54, R56).
ghost use Rattle.std.specs.Prelude.{◌≡◌, length};
ghost use Rattle.rules.specs.Shape.{cells};
ghost use Rattle.rules.specs.Operations.{same_shape};
ghost use Rattle.base.specs.Answers.{shape_of};
ghost use Rattle.writer.specs.Writes.{Writes};
ghost use Rattle.sets.specs.Spelt.{Taken};
ghost use Rattle.compose.specs.Contract.{answer, Pairs, Finished};

use base::bytes::word;
use base::refusal::Refusal;
use base::shape::Shape;
use carry::{carry_rows, copy_rows, move_heads};
use program::header::shape_at;
use table::LentTable;
use writer::write_finished;

// R40: whether two shapes are the same.
fn same_shape(a: Shape, b: Shape) -> bool
    ensures { result ≡ same_shape (shape_of a) (shape_of b) }
{
    a == b
}

// R54: writes the composed set: the second set's heads are renumbered first.
fn write_moved(
    first: &[u8],
    second: &[u8],
    shape: Shape,
    table: &LentTable,
    numbers: &mut [u16],
    heads: &mut [u16],
    out: &mut [u8],
) -> Result<usize, Refusal>
    requires { Finished first.now second.now shape table.now numbers.old ×
        (length heads.old ≡ cells (shape_of shape)) }
    ensures { Writes (answer first.now second.now (length table.now.rows.now)
        (length numbers.old) out.old) result out.old out.new }
{
    move_heads(first, second, shape, numbers, heads);
    write_finished(shape, heads, table.rows, table.state, numbers, out)
}

// Lends the heads: a shape has at most 217 cells (R1, R2).
fn write_composed(
    first: &[u8],
    second: &[u8],
    shape: Shape,
    table: &LentTable,
    numbers: &mut [u16],
    out: &mut [u8],
) -> Result<usize, Refusal>
    requires { Finished first.now second.now shape table.now numbers.old }
    ensures { Writes (answer first.now second.now (length table.now.rows.now)
        (length numbers.old) out.old) result out.old out.new }
{
    let mut heads = [0u16; 217];
    let cells = shape.cells();
    write_moved(
        first,
        second,
        shape,
        table,
        numbers,
        &mut heads[..cells],
        out,
    )
}

// R34, R40, R54: the first set's rows, the second's rewritten onto them, and the set written. An append that finds no row left is 10.
fn compose_pair(
    first: &[u8],
    second: &[u8],
    shape: Shape,
    total: usize,
    rows: &mut [u64],
    numbers: &mut [u16],
    out: &mut [u8],
) -> Result<usize, Refusal>
    requires { Pairs first.now second.now shape total (length rows.old) (length numbers.old) }
    ensures { Writes (answer first.now second.now (length rows.old)
        (length numbers.old) out.old) result out.old out.new }
{
    let mut table = LentTable::empty(rows);
    copy_rows(first, shape, total, &mut table)?;
    carry_rows(first, second, shape, &mut table, numbers)?;
    write_composed(first, second, shape, &table, numbers, out)
}

// R40, R51, R54, R56: composes two accepted files. The shapes are the same (12), each row of the first has a row (10), and each row
// of both a number (10).
pub fn compose_accepted(
    first: &[u8],
    second: &[u8],
    rows: &mut [u64],
    numbers: &mut [u16],
    out: &mut [u8],
) -> Result<usize, Refusal>
    requires { Taken first.now × Taken second.now }
    ensures { Writes (answer first.now second.now (length rows.old)
        (length numbers.old) out.old) result out.old out.new }
{
    let shape = shape_at(first);
    if !same_shape(shape, shape_at(second)) {
        return Err(Refusal::ShapesDiffer);
    }
    let total = 2 + shape.cells() + word(first, 5);
    if rows.len() < total {
        return Err(Refusal::NoRoom(0));
    }
    if numbers.len() < total + word(second, 5) {
        return Err(Refusal::NoRoom(0));
    }
    compose_pair(first, second, shape, total, rows, numbers, out)
}
