// T(i) from the last instruction up: one turn for each instruction, in one table (R38).
#![tactic(auto)]

ghost use Rattle.std.specs.Prelude.{◌+◌, ◌≤◌, length};
ghost use Rattle.table.specs.Append.{Kept, room_of};
ghost use Rattle.turn.specs.Turning.{Turning, Building, Builds};

use base::kinds::Instr;
use base::refusal::Refusal;
use base::shape::Shape;
use table::LentTable;
use turn::{copy_heads, slot_of, turn_heads};

// R38: the turn of instruction i, whose heads are put in their place.
fn turn_into(
    file: &[u8],
    shape: Shape,
    n: usize,
    i: Instr,
    table: &mut LentTable,
    numbers: &mut [u16],
    heads: &mut [u16],
    made: &mut [u16],
) -> Result<(), Refusal>
    requires { Turning file.now shape n i.0 table.old (length numbers.old) heads.old made.old }
    ensures kept { Kept table.old table.new }
    ensures turned { Builds file.now shape n table.old result table.new heads.new i.0 }
{
    turn_heads(file, shape, n, i, heads, table, numbers, made)?;
    let cells = shape.cells();
    let from = slot_of(i, cells);
    let to = from + cells;
    copy_heads(made, &mut heads[from..to]);
    Ok(())
}

// R38: the turn of instruction i. Lends the heads: a shape has at most 217 cells (R1, R2).
fn build_turn(
    file: &[u8],
    shape: Shape,
    n: usize,
    i: Instr,
    table: &mut LentTable,
    numbers: &mut [u16],
    heads: &mut [u16],
) -> Result<(), Refusal>
    requires building { Building file.now shape n table.old heads.old (i.0 + 1) }
    requires rows_in_bounds { room_of table.old ≤ length numbers.old }
    ensures kept { Kept table.old table.new }
    ensures builds { Builds file.now shape n table.old result table.new heads.new i.0 }
{
    let mut made = [0u16; 217];
    let cells = shape.cells();
    turn_into(file, shape, n, i, table, numbers, heads, &mut made[..cells])
}

// R38: all turns, the last instruction first.
pub fn build_turns(
    file: &[u8],
    shape: Shape,
    n: usize,
    table: &mut LentTable,
    numbers: &mut [u16],
    heads: &mut [u16],
) -> Result<(), Refusal>
    requires building { Building file.now shape n table.old heads.old n }
    requires rows_in_bounds { room_of table.old ≤ length numbers.old }
    ensures kept { Kept table.old table.new }
    ensures builds { Builds file.now shape n table.old result table.new heads.new 0 }
{
    for i in (0..n).rev() {
        build_turn(file, shape, n, Instr(i as u16), table, numbers, heads)?;
    }
    Ok(())
}
