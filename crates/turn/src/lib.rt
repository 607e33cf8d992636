// The turn of one instruction: the heads of T(i) over one table (R38).
#![tactic(auto)]

ghost use Rattle.std.specs.Prelude.{◌≡◌, ◌+◌, ◌*◌, ◌≤◌, length};
ghost use Rattle.base.specs.Answers.{shape_of};
ghost use Rattle.table.specs.Append.{Kept};
ghost use Rattle.rows.specs.Making.{Draws};
ghost use Rattle.rewrite.specs.Follow.{Following};
ghost use Rattle.turn.specs.Turning.{slot, Jumps, Turning, turn_at};

use base::kinds::{Instr, Row};
use base::refusal::Refusal;
use base::shape::Shape;
use choice::choose_heads;
use own::{own_alone, own_value, own_variable};
use program::body::instr_at;
use reader::body::Body;
use reader::code::{AloneCode, LabelCode};
use rewrite::follow;
use table::LentTable;

// Copies heads. `copy_cells` of `storage` is its twin for cells: each is one call.
pub fn copy_heads(from: &[u16], to: &mut [u16])
    requires { length from.now ≡ length to.old }
    ensures { to.new ≡ from.now }
{
    to.copy_from_slice(from);
}

// R38: where the heads of T(i) begin.
pub fn slot_of(i: Instr, cells: usize) -> usize
    requires { (i.0 ≤ 512) × (cells ≤ 217) }
    ensures { (result ≡ i.0 * cells) × (result ≤ 111104) }
{
    i.0 as usize * cells
}

// R38: the heads of T(l).
fn slot_in<'a>(heads: &'a [u16], l: Instr, cells: usize) -> &'a [u16]
    requires { (l.0 ≤ 512) × (cells ≤ 217) × (l.0 * cells + cells ≤ length heads.now) }
    ensures { result.now ≡ slot cells heads.now l.0 }
{
    let from = slot_of(l, cells);
    let to = from + cells;
    &heads[from..to]
}

// R38: a jump or a call by its code, where `made` has T(l), and `next` is T(i+1).
fn jump_heads(
    shape: Shape,
    code: LabelCode,
    next: &[u16],
    table: &mut LentTable,
    numbers: &mut [u16],
    made: &mut [u16],
) -> Result<(), Refusal>
    requires { Following (shape_of shape) next.now table.old (length numbers.old) made.old }
    ensures kept { Kept table.old table.new }
    ensures jumps { Jumps (shape_of shape) code next.now table.old (length numbers.old) made.old result table.new made.new }
{
    let f = Row::of_cell(shape.flag());
    match code {
        LabelCode::Jp => Ok(()),
        LabelCode::Jpc => choose_heads(f, next, table, made),
        LabelCode::Js => follow(shape, next, table, numbers, made),
        LabelCode::Jsc => {
            follow(shape, next, table, numbers, made)?;
            choose_heads(f, next, table, made)
        }
    }
}

// R38: the heads of T(i): an instruction's own set and T(i+1) after it, what its jump or call leads to, or for END the own set alone.
pub fn turn_heads(
    file: &[u8],
    shape: Shape,
    n: usize,
    i: Instr,
    heads: &[u16],
    table: &mut LentTable,
    numbers: &mut [u16],
    made: &mut [u16],
) -> Result<(), Refusal>
    requires { Turning file.now shape n i.0 table.old (length numbers.old) heads.now made.old }
    ensures kept { Kept table.old table.new }
    ensures turned { Draws table.old result table.new made.new (turn_at file.now i.0) }
{
    let cells = shape.cells();
    let next = Instr(i.0 + 1);
    match instr_at(file, n, i) {
        Body::Alone(code) => match code {
            AloneCode::End => return own_alone(shape, code, table, made),
            _ => own_alone(shape, code, table, made)?,
        },
        Body::Value(code, at) => own_value(file, shape, code, at, table, made)?,
        Body::Variable(code, b) => own_variable(shape, code, b, table, made)?,
        Body::Label(code, l) => {
            copy_heads(slot_in(heads, l, cells), made);
            let ahead = slot_in(heads, next, cells);
            return jump_heads(shape, code, ahead, table, numbers, made);
        }
        // An accepted program has no such code.
        Body::Unknown => unreachable!(),
    }
    follow(shape, slot_in(heads, next, cells), table, numbers, made)
}
