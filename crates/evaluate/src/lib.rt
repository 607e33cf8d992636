// Evaluates a set file on a storage (R27, R31, R51, R57).
#![tactic(auto)]

pub mod values;

ghost use Rattle.std.specs.Prelude.{◌≡◌, length};
ghost use Rattle.rules.specs.Operations.{work_after};
ghost use Rattle.evaluate.specs.Evaluate.{Evaluates};

use crate::values::evaluate_accepted;
use base::refusal::Refusal;
use sets::check_set;

// R51: evaluates a set file. The file is checked first.
fn evaluate_checked(file: &[u8], storage: &mut [u8], values: &mut [u8]) -> Result<(), Refusal>
    ensures { Evaluates file.now storage.old (length values.old) result storage.new }
{
    check_set(file)?;
    evaluate_accepted(file, storage, values)
}

// R31, R51, R52, R57: evaluates a set file on a storage: every cell gets the value of its head. The file is checked first (1, 2, 3,
// 4, 13), then the storage (14), then the values lent (10). A refusal leaves the storage as it came; the values are zero after.
pub fn evaluate(file: &[u8], storage: &mut [u8], values: &mut [u8]) -> Result<(), Refusal>
    ensures evaluates { Evaluates file.now storage.old (length values.old) result storage.new }
    ensures values_after { values.new ≡ work_after values.old }
{
    let r = evaluate_checked(file, storage, values);
    values.fill(0);
    r
}
