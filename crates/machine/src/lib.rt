// Scans a program step by step.
#![tactic(auto)]

pub mod obey;
pub mod run;

ghost use Rattle.std.specs.Prelude.{◌≡◌, length};
ghost use Rattle.machine.specs.Run.{Runnable};
ghost use Rattle.machine.specs.Scan.{Scans};

use crate::run::run_from;
use base::kinds::Instr;
use base::refusal::Refusal;
use program::file::Program;
use storage::{check_cells, copy_cells};

// The steps, on a copy of the storage, which is handed over when the machine has stopped.
fn scan_on(
    program: &Program<'_>,
    storage: &mut [u8],
    copy: &mut [u8],
    budget: u32,
) -> Result<u32, Refusal>
    requires runnable { Runnable program.now storage.old 0 }
    requires storage_len { length storage.old ≡ length copy.old }
    ensures { Scans program.now.file.now storage.old budget result storage.new }
{
    copy_cells(storage, copy);
    let left = run_from(program, copy, Instr(0), budget).map_err(Refusal::BudgetSpent)?;
    copy_cells(copy, storage);
    Ok(budget - left)
}

// Lends the copy: 217 cells are the most that a shape has (R1, R2).
fn scan_cells(program: &Program<'_>, storage: &mut [u8], budget: u32) -> Result<u32, Refusal>
    requires { Runnable program.now storage.old 0 }
    ensures { Scans program.now.file.now storage.old budget result storage.new }
{
    let mut copy = [0u8; 217];
    let cells = storage.len();
    scan_on(program, storage, &mut copy[..cells], budget)
}

// R25, R51: scans a program file on a storage within a budget. The file is checked first, then the storage (14); a budget that is
// spent is 11 at the instruction due. A refusal leaves the storage as it came.
pub fn scan(file: &[u8], storage: &mut [u8], budget: u32) -> Result<u32, Refusal>
    ensures { Scans file.now storage.old budget result storage.new }
{
    let program = Program::read(file)?;
    check_cells(storage, program.shape.cells())?;
    scan_cells(&program, storage, budget)
}
