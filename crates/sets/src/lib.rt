// Checks a set file, and reads its parts (R41 to R44, R49).
#![tactic(auto)]

pub mod check;
pub mod fit;
pub mod naming;
pub mod read;

ghost use Rattle.std.specs.Prelude.{◌≡◌};
ghost use Rattle.base.specs.Answers.{verdict_of};
ghost use Rattle.sets.specs.Judging.{set_verdict};

use crate::check::check_rest;
use base::refusal::Refusal;
use program::header::read_header;

// R41 to R44, R49: whether a file is the file of a set. The header (1, 2, 3); the count (3); the length (1, 4); then, each 13:
// heads, rows in order, the lowest row that nothing names.
pub fn check_set(file: &[u8]) -> Result<(), Refusal>
    ensures { verdict_of result ≡ set_verdict file.now }
{
    let shape = read_header(file, 2)?;
    check_rest(file, shape)
}
