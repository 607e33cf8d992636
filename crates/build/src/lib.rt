// Builds the transfer set of a program file (R37 to R39, R51, R55).
#![tactic(auto)]

ghost use Rattle.std.specs.Prelude.{◌≡◌, ◌+◌, ◌≤◌, length};
ghost use Rattle.rules.specs.Verdict.{granted};
ghost use Rattle.rules.specs.Edition.{old};
ghost use Rattle.rules.specs.ProgramFile.{read_program};
ghost use Rattle.rules.specs.Rows.{base};
ghost use Rattle.rules.specs.Operations.{work_after};
ghost use Rattle.program.specs.Standing.{program_in};
ghost use Rattle.table.specs.Append.{Kept};
ghost use Rattle.rows.specs.Table.{Holds};
ghost use Rattle.writer.specs.Writes.{Writes};
ghost use Rattle.build.specs.Contract.{answer, Builds, Ready};

use base::bytes::word;
use base::kinds::Row;
use base::refusal::Refusal;
use base::shape::Shape;
use program::check_program;
use program::header::shape_at;
use rows::node::{Node, entry_of};
use table::{LentTable, room_in};
use turns::build_turns;
use writer::write_finished;

// R26: the constants and the cells, appended to an empty table one after another.
fn put_leaves(cells: usize, table: &mut LentTable) -> Result<(), Refusal>
    requires { (2 + cells ≤ 65535) × (table.old.state.used ≡ 0) }
    ensures kept { Kept table.old table.new }
    ensures holds { Holds table.old result table.new (base cells) }
{
    for i in 0..2 + cells {
        table.append(entry_of(Node::Leaf(Row(i as u16))))?;
    }
    Ok(())
}

// R38, R39: builds all T(i) in one table, and writes the set of T(0). An append that finds no row left is 10.
fn build_program(
    file: &[u8],
    shape: Shape,
    n: usize,
    rows: &mut [u64],
    numbers: &mut [u16],
    heads: &mut [u16],
    out: &mut [u8],
) -> Result<usize, Refusal>
    requires { Ready file.now shape n (length rows.old) (length numbers.old) (length heads.old) }
    ensures { Writes (answer file.now (length rows.old) (length numbers.old)
        (length heads.old) out.old) result out.old out.new }
{
    let cells = shape.cells();
    let mut table = LentTable::empty(rows);
    put_leaves(cells, &mut table)?;
    build_turns(file, shape, n, &mut table, numbers, heads)?;
    write_finished(
        shape,
        &heads[..cells],
        table.rows(),
        table.state,
        numbers,
        out,
    )
}

// R51, R54, R55: builds the set of an accepted file. Each constant and cell has a row (10), each row that may be used a number, and
// each cell of each instruction a head (10).
fn build_accepted(
    file: &[u8],
    rows: &mut [u64],
    numbers: &mut [u16],
    heads: &mut [u16],
    out: &mut [u8],
) -> Result<usize, Refusal>
    requires { read_program old file.now ≡ granted (program_in file.now) }
    ensures { Writes (answer file.now (length rows.old) (length numbers.old)
        (length heads.old) out.old) result out.old out.new }
{
    let shape = shape_at(file);
    let cells = shape.cells();
    let n = word(file, 5);
    if rows.len() < 2 + cells {
        return Err(Refusal::NoRoom(0));
    }
    if numbers.len() < room_in(rows.len()) {
        return Err(Refusal::NoRoom(0));
    }
    if heads.len() < n * cells {
        return Err(Refusal::NoRoom(0));
    }
    build_program(file, shape, n, rows, numbers, heads, out)
}

// R51: the file is judged first.
fn build_checked(
    file: &[u8],
    rows: &mut [u64],
    numbers: &mut [u16],
    heads: &mut [u16],
    out: &mut [u8],
) -> Result<usize, Refusal>
    ensures { Builds file.now (length rows.old) (length numbers.old)
        (length heads.old) result out.old out.new }
{
    check_program(file)?;
    build_accepted(file, rows, numbers, heads, out)
}

// R39, R51, R52, R55: builds the transfer set of a program file: the set that evaluates to what a scan leaves. The file is judged
// (1 to 9), then the room (10). A refusal leaves the output as it came; rows, numbers and heads are zero after.
pub fn build(
    file: &[u8],
    rows: &mut [u64],
    numbers: &mut [u16],
    heads: &mut [u16],
    out: &mut [u8],
) -> Result<usize, Refusal>
    ensures builds { Builds file.now (length rows.old) (length numbers.old)
        (length heads.old) result out.old out.new }
    ensures rows_after { rows.new ≡ work_after rows.old }
    ensures numbers_after { numbers.new ≡ work_after numbers.old }
    ensures heads_after { heads.new ≡ work_after heads.old }
{
    let r = build_checked(file, rows, numbers, heads, out);
    rows.fill(0);
    numbers.fill(0);
    heads.fill(0);
    r
}
