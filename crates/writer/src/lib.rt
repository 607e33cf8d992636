// Writes a set file: heads over a table, or the set that changes nothing (R36, R41, R58, R59).
#![tactic(auto)]

pub mod put;

ghost use Rattle.std.specs.Prelude.{◌≡◌, length};
ghost use Rattle.rules.specs.Verdict.{granted};
ghost use Rattle.rules.specs.Edition.{old};
ghost use Rattle.rules.specs.Shape.{check_shape};
ghost use Rattle.rules.specs.SetFile.{leaves};
ghost use Rattle.rules.specs.Operations.{set_of, unchanging_set, write_into, write_unchanging};
ghost use Rattle.laws.specs.After.{over};
ghost use Rattle.base.specs.Answers.{shape_of};
ghost use Rattle.rows.specs.Entries.{table_in};
ghost use Rattle.writer.specs.Writes.{Writes};
ghost use Rattle.writer.specs.Finish.{Finishing, Finishes};
ghost use Rattle.reach.specs.Tabled.{Tabled};

use crate::put::{put_header, put_heads, put_own_heads, put_rows};
use base::refusal::Refusal;
use base::shape::Shape;
use program::header::check_shape;
use reach::number::number_reached;
use table::Table;

// R58, R59: writes the unchanging set of an allowed shape.
fn put_unchanging(shape: Shape, out: &mut [u8]) -> Result<usize, Refusal>
    requires { check_shape old (shape_of shape) ≡ granted tt }
    ensures { Writes (write_into old (leaves (shape_of shape)) (length out.old) (unchanging_set (shape_of shape))) result
        out.old out.new }
{
    let cells = shape.cells();
    let length = 7 + 2 * cells;
    if out.len() < length {
        return Err(Refusal::NoRoom((2 + cells) as u32));
    }
    put_header(out, shape, 0);
    put_own_heads(out, cells);
    Ok(length)
}

// R58, R59: writes the unchanging set of a shape.
pub fn write_unchanging(shape: Shape, out: &mut [u8]) -> Result<usize, Refusal>
    ensures { Writes (write_unchanging old (shape_of shape) (length out.old)) result out.old
        out.new }
{
    check_shape(shape)?;
    put_unchanging(shape, out)
}

// R36, R41, R59: writes the set that heads over a table are: the rows that they reach, renumbered in order. A short output is untouched.
fn write_table(
    shape: Shape,
    heads: &[u16],
    rows: &[u64],
    used: usize,
    numbers: &mut [u16],
    out: &mut [u8],
) -> Result<usize, Refusal>
    requires { Tabled (shape_of shape) heads.now rows.now used (length numbers.old) }
    ensures { Writes (write_into old used (length out.old)
        (set_of (shape_of shape) (over (table_in rows.now used) heads.now))) result out.old
        out.new }
{
    let cells = shape.cells();
    let next = number_reached(shape, heads, rows, used, numbers);
    let count = next - (2 + cells);
    let length = 7 + 2 * cells + 5 * count;
    if out.len() < length {
        return Err(Refusal::NoRoom(used as u32));
    }
    put_header(out, shape, count as u16);
    put_heads(out, heads, numbers);
    put_rows(out, 7 + 2 * cells, rows, 2 + cells, used, numbers);
    Ok(length)
}

// R54, R59: the end of building and composing: the set that heads over the rows in use are is written. The rows are only read.
pub fn write_finished(
    shape: Shape,
    heads: &[u16],
    rows: &[u64],
    table: Table,
    numbers: &mut [u16],
    out: &mut [u8],
) -> Result<usize, Refusal>
    requires { Finishing (shape_of shape) heads.now rows.now table (length numbers.old) }
    ensures { Finishes (shape_of shape) heads.now rows.now table result out.old out.new }
{
    write_table(shape, heads, rows, table.used, numbers, out)
}
