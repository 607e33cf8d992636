// What a set file has after its header: the count, the length, the heads and the rows (R41 to R44, R49).
ghost use Rattle.std.specs.Prelude.{◌≡◌, ◌≤◌, length};
ghost use Rattle.rules.specs.Edition.{old};
ghost use Rattle.rules.specs.Lists.{seek};
ghost use Rattle.rules.specs.Shape as S;
ghost use Rattle.rules.specs.SetFile.{check_rows};
ghost use Rattle.base.specs.Answers.{shape_of, verdict_of};
ghost use Rattle.sets.specs.Judging.{spells, rest_verdict, bad_head, unfit, unnamed};
ghost use Rattle.sets.specs.Spelt.{rows_in};

use crate::fit::row_fits;
use crate::naming::row_named;
use crate::read::{SetFile, row_place};
use base::bytes::word;
use base::kinds::{Cell, Row};
use base::refusal::Refusal;
use base::shape::Shape;

// R43: the first cell whose head is no row.
fn first_bad_head(set: &SetFile<'_>) -> usize
    ensures { result ≡ seek (bad_head set.now) (S.cells (shape_of set.now.shape)) 0 }
{
    let cells = set.shape.cells();
    let total = set.total();
    for c in 0..cells {
        if total <= set.head(Cell(c as u16)).0 as usize {
            return c;
        }
    }
    cells
}

// R43: the first operation row that does not fit. It and `first_unnamed` stay two loops: a row may be asked whether it fits only after rows
// that do, so a closure for the test would carry that in its contract.
fn first_unfit(set: &SetFile<'_>) -> usize
    ensures { result ≡ seek (unfit set.now) (rows_in set.now.file.now) 0 }
{
    let leaves = set.leaves();
    let rows = set.rows();
    for j in 0..rows {
        if !row_fits(set, Row((leaves + j) as u16)) {
            return j;
        }
    }
    rows
}

// R44: the first operation row that nothing names.
fn first_unnamed(set: &SetFile<'_>) -> usize
    ensures { result ≡ seek (unnamed set.now) (rows_in set.now.file.now) 0 }
{
    let leaves = set.leaves();
    let rows = set.rows();
    for j in 0..rows {
        if !row_named(set, Row((leaves + j) as u16)) {
            return j;
        }
    }
    rows
}

// R43, R44, R49: heads, then rows in order, then the lowest row that nothing names (each 13).
fn check_rows(set: &SetFile<'_>) -> Result<(), Refusal>
    ensures { verdict_of result ≡ check_rows old (spells set.now) (rows_in set.now.file.now) }
{
    let c = first_bad_head(set);
    if c < set.shape.cells() {
        return Err(Refusal::BadRow(7 + 2 * c));
    }
    let rows = set.rows();
    let unfit = first_unfit(set);
    if unfit < rows {
        return Err(Refusal::BadRow(set.place(unfit)));
    }
    let unnamed = first_unnamed(set);
    if unnamed < rows {
        return Err(Refusal::BadRow(set.place(unnamed)));
    }
    Ok(())
}

// R41, R49: what follows a header with that shape: the count (3), the length (1, 4), then heads and rows (13).
pub fn check_rest(file: &[u8], shape: Shape) -> Result<(), Refusal>
    requires { 7 ≤ length file.now }
    ensures { verdict_of result ≡ rest_verdict file.now (shape_of shape) }
{
    let rows = word(file, 5);
    if 65535 < 2 + shape.cells() + rows {
        return Err(Refusal::OutOfRange(5));
    }
    let end = row_place(shape, rows);
    if file.len() < end {
        return Err(Refusal::EndsEarly(file.len()));
    }
    if end < file.len() {
        return Err(Refusal::Misplaced(end));
    }
    check_rows(&SetFile { file, shape })
}
