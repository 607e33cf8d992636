// What `tset` prints: the text of a set or of a refusal (R60 to R64).
#![tactic(auto)]

pub mod set;

ghost use Rattle.std.specs.Prelude.{◌≡◌, ◌+◌, ◌≤◌, length, take};
ghost use Rattle.rules.specs.Edition.{old};
ghost use Rattle.rules.specs.SetFile.{read_set};
ghost use Rattle.rules.specs.Lines.{answer_text};
ghost use Rattle.text.specs.Puts.{place, size, with_word};
ghost use Rattle.lines.specs.Answer.{built_text};

use crate::set::put_set;
use build::build;
use sets::check_set;
use text::word::Text;

// R62, R63: the text of a set file: the set in it, or its refusal.
fn print_set(set: &[u8], text: &mut Text<'_>)
    requires { (length set.now ≤ 40957) × (place text.old + 230000 ≤ size text.old) }
    ensures text_after { text.new ≡ with_word text.old (answer_text (read_set old set.now)) }
    ensures upper_bound { place text.new ≤ size text.new }
{
    match check_set(set) {
        Ok(()) => put_set(set, text),
        Err(x) => text.put_refusal(x),
    }
}

// R64: builds the set of a program file in the room that is fixed, and puts its text, or that of the refusal.
fn put_built(
    file: &[u8],
    rows: &mut [u64],
    numbers: &mut [u16],
    heads: &mut [u16],
    set: &mut [u8],
    text: &mut Text<'_>,
)
    requires rows_len { (length rows.old ≡ 8192) × (length numbers.old ≡ 8192) × (length heads.old ≡ 16384) }
    requires set_len { (length set.old ≡ 40957) × (place text.old + 230000 ≤ size text.old) }
    ensures text_after { text.new ≡ with_word text.old (built_text file.now) }
    ensures upper_bound { place text.new ≤ size text.new }
{
    match build(file, rows, numbers, heads, set) {
        Ok(n) => print_set(&set[..n], text),
        Err(x) => text.put_refusal(x),
    }
}

// R64: the same at the start of an output. Answers how many bytes the text has.
#[tactic(auto, using(crate::specs::Answer::begins), unfolding(text::specs::Puts::place, text::specs::Puts::size, text::specs::Puts::with_word))]
pub fn print_built(
    file: &[u8],
    rows: &mut [u64],
    numbers: &mut [u16],
    heads: &mut [u16],
    set: &mut [u8],
    text: &mut [u8],
) -> usize
    requires rows_len { (length rows.old ≡ 8192) × (length numbers.old ≡ 8192) × (length heads.old ≡ 16384) }
    requires set_len { (length set.old ≡ 40957) × (230000 ≤ length text.old) }
    ensures text_after { take result text.new ≡ built_text file.now }
    ensures upper_bound { result ≤ length text.new }
{
    let mut printed = Text::new(text);
    put_built(file, rows, numbers, heads, set, &mut printed);
    printed.len()
}
