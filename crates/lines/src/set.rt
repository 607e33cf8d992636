// Puts the text of the set in an accepted file behind a text (R62).
ghost use Rattle.std.specs.Prelude.{◌≡◌, ◌<◌};
ghost use Rattle.rules.specs.Lines.{set_text};
ghost use Rattle.rules.specs.Shape as S;
ghost use Rattle.rules.specs.SetFile.{leaves};
ghost use Rattle.base.specs.Answers.{shape_of};
ghost use Rattle.sets.specs.Judging.{spells, rows_of};
ghost use Rattle.sets.specs.Spelt.{rows_in, set_in, Taken};
ghost use Rattle.text.specs.Puts.{Fits, with_word};
ghost use Rattle.lines.specs.Sets.{cell_text, cell_texts, row_text, row_texts};

use base::kinds::{Cell, Row};
use sets::read::SetFile;
use text::word::Text;

// R62: the line of a cell.
#[tactic(auto, using(crate::specs::Sets::file_lines))]
fn put_cell_of(set: &SetFile<'_>, c: Cell, text: &mut Text<'_>)
    requires c_bound { c.0 < S.cells (shape_of set.now.shape) }
    requires fits { Fits (cell_text (spells set.now) c.0) text.old }
    ensures { text.new ≡ with_word text.old (cell_text (spells set.now) c.0) }
{
    text.put_cell_line(c, set.head(c));
}

// R62: the line of each cell, in order.
#[tactic(auto, using(text::specs::Puts::words, crate::specs::Sets::line_steps))]
fn put_cell_lines(set: &SetFile<'_>, text: &mut Text<'_>)
    requires { Fits (cell_texts (spells set.now) (S.cells (shape_of set.now.shape))) text.old }
    ensures { text.new ≡ with_word text.old (cell_texts (spells set.now) (S.cells (shape_of set.now.shape))) }
{
    for c in 0..set.shape.cells() {
        put_cell_of(set, Cell(c as u16), text);
    }
}

// R62: the line of an operation row.
#[tactic(auto, using(crate::specs::Sets::file_lines))]
fn put_row_of(set: &SetFile<'_>, k: Row, text: &mut Text<'_>)
    requires k_bound { k.0 < rows_of set.now }
    requires fits { Fits (row_text (spells set.now) k.0) text.old }
    ensures { text.new ≡ with_word text.old (row_text (spells set.now) k.0) }
{
    text.put_row_line(k, set.row(k));
}

// R62: the line of each operation row, in order.
#[tactic(auto, using(text::specs::Puts::words, crate::specs::Sets::line_steps))]
fn put_row_lines(set: &SetFile<'_>, text: &mut Text<'_>)
    requires { Fits (row_texts (spells set.now) (leaves (shape_of set.now.shape)) (rows_in set.now.file.now)) text.old }
    ensures { text.new ≡ with_word text.old
        (row_texts (spells set.now) (leaves (shape_of set.now.shape)) (rows_in set.now.file.now)) }
{
    let leaves = set.leaves();
    for j in 0..set.rows() {
        put_row_of(set, Row((leaves + j) as u16), text);
    }
}

// R62: the text of a set.
#[tactic(auto, using(text::specs::Puts::words, crate::specs::Sets::accepted_parts))]
pub fn put_set(file: &[u8], text: &mut Text<'_>)
    requires taken { Taken file.now }
    requires fits { Fits (set_text (set_in file.now)) text.old }
    ensures { text.new ≡ with_word text.old (set_text (set_in file.now)) }
{
    let set = SetFile::accepted(file);
    text.put_first_line(set.shape.cells(), set.rows());
    put_cell_lines(&set, text);
    put_row_lines(&set, text);
}
