// The values of the rows of a set file, and the storage that its heads give (R27, R31).
ghost use Rattle.std.specs.Prelude.{◌≡◌, ◌∷◌, ◌+◌, ◌-◌, ◌≤◌, ◌<◌, length, get_or};
ghost use Rattle.rows.specs.Entries.{node_row};
ghost use Rattle.sets.specs.Spelt.{Taken};
ghost use Rattle.sets.specs.Judging.{rows_of};
ghost use Rattle.evaluate.specs.Values.{byte_of, Worked, Evaluable, Valued, evaluated_bytes};
ghost use Rattle.evaluate.specs.Evaluate.{Evaluates};

use base::kinds::{Cell, Row};
use base::refusal::Refusal;
use rows::node::Node;
use sets::read::SetFile;
use storage::bits::{both, either, opposite};
use storage::check_cells;

// R27: the value of a constant or cell.
fn leaf_value(storage: &[u8], i: Row) -> u8
    requires { i.0 < 2 + length storage.now }
    ensures { result ≡ get_or (0 ∷ 1 ∷ storage.now) i.0 0 }
{
    let at = i.0 as usize;
    if at < 2 {
        return i.0 as u8;
    }
    storage[at - 2]
}

// R27: the value of a row, from those of the rows before it.
#[tactic(auto, unfolding(crate::specs::Values::byte_of))]
fn row_value(storage: &[u8], values: &[u8], node: Node) -> u8
    requires { Worked (length storage.now) (length values.now) (node_row node) }
    ensures { result ≡ byte_of storage.now values.now (node_row node) }
{
    match node {
        Node::Leaf(i) => leaf_value(storage, i),
        Node::Not(a) => {
            let x = a.0 as usize;
            opposite(values[x])
        }
        Node::Two(o, a, b) => {
            let x = a.0 as usize;
            let y = b.0 as usize;
            if o {
                both(values[x], values[y])
            } else {
                either(values[x], values[y])
            }
        }
    }
}

// R27: works out the value of each row in order.
fn work_out(set: &SetFile<'_>, storage: &[u8], values: &mut [u8])
    requires { Evaluable set.now storage.now × (rows_of set.now ≤ length values.old) }
    ensures { Valued set.now storage.now values.new (rows_of set.now) }
{
    let total = set.total();
    for i in 0..total {
        values[i] = row_value(storage, values, set.row(Row(i as u16)));
    }
}

// R31: each cell gets the value of its head.
fn take_heads(set: &SetFile<'_>, storage: &mut [u8], values: &[u8])
    requires evaluable { Evaluable set.now storage.old × (rows_of set.now ≤ length values.now) }
    requires valued { Valued set.now storage.old values.now (rows_of set.now) }
    ensures { storage.new ≡ evaluated_bytes set.now storage.old }
{
    for (c, x) in storage.iter_mut().enumerate() {
        let head = set.head(Cell(c as u16));
        let at = head.0 as usize;
        *x = values[at];
    }
}

// R31, R51, R57: evaluates an accepted file. The storage is checked first (14); then a value for each row must be lent (10).
pub fn evaluate_accepted(file: &[u8], storage: &mut [u8], values: &mut [u8]) -> Result<(), Refusal>
    requires { Taken file.now }
    ensures { Evaluates file.now storage.old (length values.old) result storage.new }
{
    let set = SetFile::accepted(file);
    check_cells(storage, set.shape.cells())?;
    let total = set.total();
    if values.len() < total {
        return Err(Refusal::NoRoom(0));
    }
    work_out(&set, storage, values);
    take_heads(&set, storage, values);
    Ok(())
}
