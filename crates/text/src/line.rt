// The lines that are printed, put behind a text (R62, R63).
#![tactic(auto, using(crate::specs::Puts::words), unfolding(rules::specs::Text::ascii, rules::specs::Lines::line, crate::specs::Texts::line_end))]

ghost use Rattle.std.specs.Prelude.{cond, ◌∷◌, ◌≡◌};
ghost use Rattle.rules.specs.Text.{ascii};
ghost use Rattle.rules.specs.Lines.{row_name, operation};
ghost use Rattle.base.specs.Answers.{number_of, place_of};
ghost use Rattle.rows.specs.Entries.{node_row};
ghost use Rattle.text.specs.Puts.{Fits, with_word};
ghost use Rattle.text.specs.Texts.{first_line, refusal_line, cell_line, row_line, line_end};

use crate::word::Text;
use base::kinds::{Cell, Row};
use base::refusal::Refusal;
use rows::node::Node;

impl Text<'_> {
    // R62: the first line of a set: its cells and its operation rows.
    pub fn put_first_line(&mut self, cells: usize, rows: usize)
        requires { Fits (first_line cells rows) self.old }
        ensures { self.new ≡ with_word self.old (first_line cells rows) }
    {
        self.put_text(b"cells ");
        self.put_decimal(cells);
        self.put_text(b" rows ");
        self.put_decimal(rows);
        self.put_byte(b'\n');
    }

    // R63: the line of a refusal.
    pub fn put_refusal(&mut self, x: Refusal)
        requires { Fits (refusal_line (number_of x) (place_of x)) self.old }
        ensures { self.new ≡ with_word self.old (refusal_line (number_of x) (place_of x)) }
    {
        self.put_text(b"refused ");
        self.put_decimal(x.number());
        self.put_text(b" at ");
        self.put_decimal(x.place());
        self.put_byte(b'\n');
    }

    // R62: the line of a cell and its head.
    pub fn put_cell_line(&mut self, c: Cell, head: Row)
        requires { Fits (cell_line c.0 head.0) self.old }
        ensures { self.new ≡ with_word self.old (cell_line c.0 head.0) }
    {
        self.put_cell(c);
        self.put_text(b" = ");
        self.put_row(head);
        self.put_byte(b'\n');
    }

    // R62: the word of an operation on two rows.
    fn put_kind(&mut self, o: bool)
        requires { Fits (32 ∷ cond o (ascii "and") (ascii "or")) self.old }
        ensures { self.new ≡ with_word self.old (32 ∷ cond o (ascii "and") (ascii "or")) }
    {
        if o {
            self.put_text(b" and");
        } else {
            self.put_text(b" or");
        }
    }

    // R62: an operand.
    fn put_operand(&mut self, a: Row)
        requires { Fits (32 ∷ row_name a.0) self.old }
        ensures { self.new ≡ with_word self.old (32 ∷ row_name a.0) }
    {
        self.put_byte(b' ');
        self.put_row(a);
    }

    // R62: the operation of a row, to the end of its line.
    fn put_operation(&mut self, node: Node)
        requires { Fits (line_end (operation (node_row node))) self.old }
        ensures { self.new ≡ with_word self.old (line_end (operation (node_row node))) }
    {
        match node {
            Node::Leaf(_) => {}
            Node::Not(a) => {
                self.put_text(b" not");
                self.put_operand(a);
            }
            Node::Two(o, a, b) => {
                self.put_kind(o);
                self.put_operand(a);
                self.put_operand(b);
            }
        }
        self.put_byte(b'\n');
    }

    // R62: the line of an operation row.
    pub fn put_row_line(&mut self, k: Row, node: Node)
        requires { Fits (row_line k.0 (node_row node)) self.old }
        ensures { self.new ≡ with_word self.old (row_line k.0 (node_row node)) }
    {
        self.put_row(k);
        self.put_text(b" =");
        self.put_operation(node);
    }
}
