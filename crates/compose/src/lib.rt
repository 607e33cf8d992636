// Composes two set files (R34, R40, R51, R56).
#![tactic(auto)]

pub mod pair;

ghost use Rattle.std.specs.Prelude.{◌≡◌, length};
ghost use Rattle.rules.specs.Operations.{work_after};
ghost use Rattle.compose.specs.Contract.{Composes};

use crate::pair::compose_accepted;
use base::refusal::Refusal;
use sets::check_set;

// R51: which file a refusal is about.
#[derive(Clone, Copy, PartialEq, Eq)]
pub enum Blame {
    First(Refusal),
    Second(Refusal),
    // Neither file is at fault.
    Neither(Refusal),
}

// R51: the first file is judged, then the second.
fn compose_checked(
    first: &[u8],
    second: &[u8],
    rows: &mut [u64],
    numbers: &mut [u16],
    out: &mut [u8],
) -> Result<usize, Blame>
    ensures { Composes first.now second.now (length rows.old)
        (length numbers.old) result out.old out.new }
{
    check_set(first).map_err(Blame::First)?;
    check_set(second).map_err(Blame::Second)?;
    compose_accepted(first, second, rows, numbers, out).map_err(Blame::Neither)
}

// R40, R51, R52, R56: composes two set files: the set that evaluates as the first and then the second. The first file is judged
// (1, 2, 3, 4, 13), then the second, then the shapes (12), then the room (10). A refusal leaves the output as it came; rows and
// numbers are zero after.
pub fn compose(
    first: &[u8],
    second: &[u8],
    rows: &mut [u64],
    numbers: &mut [u16],
    out: &mut [u8],
) -> Result<usize, Blame>
    ensures composes { Composes first.now second.now (length rows.old)
        (length numbers.old) result out.old out.new }
    ensures rows_after { rows.new ≡ work_after rows.old }
    ensures numbers_after { numbers.new ≡ work_after numbers.old }
{
    let r = compose_checked(first, second, rows, numbers, out);
    rows.fill(0);
    numbers.fill(0);
    r
}
