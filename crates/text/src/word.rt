// A text that is put into an output, and the words, numbers and names that are put behind it (R60, R61).
#![tactic(auto, using(crate::specs::Puts::words), unfolding(rules::specs::Text::ascii))]

ghost use Rattle.std.specs.Prelude.{◌∷◌, [], ◌≡◌};
ghost use Rattle.rules.specs.Lines.{decimal, cell_name, row_name};
ghost use Rattle.text.specs.Puts.{place, Fits, with_word};

use base::kinds::{Cell, Row};

// The output, and the place after what is put. Both are public: a text may go on at any place.
#[derive(Drop)]
pub struct Text<'a> {
    pub out: &'a mut [u8],
    pub at: usize,
}

impl<'a> Text<'a> {
    // Nothing yet, at the start of an output.
    pub fn new(out: &'a mut [u8]) -> Text<'a>
        ensures { (result.out ≡ out.entry) × (result.at ≡ 0) }
    {
        Text { out, at: 0 }
    }

    // The place after what is put: how many bytes the text has, if it began at 0.
    #[tactic(auto, unfolding(crate::specs::Puts::place))]
    pub fn len(&self) -> usize
        ensures { result ≡ place self.now }
    {
        self.at
    }

    // One byte.
    #[tactic(auto, unfolding(writer::specs::Put::put_at, crate::specs::Puts::with_word, crate::specs::Puts::place, crate::specs::Puts::size))]
    pub fn put_byte(&mut self, b: u8)
        requires { Fits (b ∷ []) self.old }
        ensures { self.new ≡ with_word self.old (b ∷ []) }
    {
        self.out[self.at] = b;
        self.at += 1;
    }

    // The bytes of a word.
    #[tactic(auto, using(writer::specs::Put::put_part), unfolding(crate::specs::Puts::with_word, crate::specs::Puts::place, crate::specs::Puts::size))]
    pub fn put_text(&mut self, word: &[u8])
        requires { Fits word.now self.old }
        ensures { self.new ≡ with_word self.old word.now }
    {
        let end = self.at + word.len();
        self.out[self.at..end].copy_from_slice(word);
        self.at = end;
    }

    // R60: a number in decimal: the digits before the last, and the last.
    #[tactic(auto, using(crate::specs::Puts::words, crate::specs::Decimal::by_digits))]
    pub fn put_decimal(&mut self, n: usize)
        requires { Fits (decimal n) self.old }
        ensures { self.new ≡ with_word self.old (decimal n) }
    {
        if n < 10 {
            self.put_byte(48 + n as u8);
        } else {
            self.put_decimal(n / 10);
            self.put_byte(48 + (n % 10) as u8);
        }
    }

    // R61: a cell.
    pub fn put_cell(&mut self, c: Cell)
        requires { Fits (cell_name c.0) self.old }
        ensures { self.new ≡ with_word self.old (cell_name c.0) }
    {
        self.put_byte(b'c');
        self.put_decimal(c.0 as usize);
    }

    // R61: a row.
    pub fn put_row(&mut self, r: Row)
        requires { Fits (row_name r.0) self.old }
        ensures { self.new ≡ with_word self.old (row_name r.0) }
    {
        self.put_byte(b'r');
        self.put_decimal(r.0 as usize);
    }
}
