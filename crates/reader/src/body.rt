// The body of an instruction, taken apart (R10).
ghost use Rattle.std.specs.Prelude.{◌≡◌, ◌<◌};
ghost use Rattle.rules.specs.Lists.{number_at};
ghost use Rattle.reader.specs.Bodies.{body_in};

use crate::code::{AloneCode, Code, LabelCode, ValueCode, VariableCode, code_of};
use crate::read_at;
use base::kinds::{Cell, Instr};

// R10: a code, and what follows it.
#[derive(Clone, Copy)]
pub enum Body {
    // Nothing.
    Alone(AloneCode),
    // An expression, which begins at that place.
    Value(ValueCode, usize),
    // A variable.
    Variable(VariableCode, Cell),
    // A label.
    Label(LabelCode, Instr),
    // There is no such code.
    Unknown,
}

// R5: the two-byte number at a place, and 0 for a byte past the end.
fn word_in(file: &[u8], at: usize) -> usize
    requires { at < 18446744073709551615 }
    ensures { (result ≡ number_at 2 file.now at) × (result < 65536) }
{
    usize::from(u16::from_le_bytes([read_at(file, at), read_at(file, at + 1)]))
}

// R10: the body at a place of a file; past the end there are zeros, which are INIT's.
pub fn decode(file: &[u8], at: usize) -> Body
    ensures { result ≡ body_in file.now at }
{
    if file.len() <= at {
        return Body::Alone(AloneCode::Init);
    }
    match code_of(read_at(file, at)) {
        Code::Alone(code) => Body::Alone(code),
        Code::Value(code) => Body::Value(code, at + 1),
        Code::Variable(code) => Body::Variable(code, Cell::from(read_at(file, at + 1))),
        Code::Label(code) => Body::Label(code, Instr::of_word(word_in(file, at + 1))),
        Code::Unknown => Body::Unknown,
    }
}
