// The one reader of instruction bodies: it holds a program file and its place (R10, R11).
#![tactic(auto)]

pub mod body;
pub mod code;

ghost use Rattle.std.specs.Prelude.{◌≡◌, get_or};

// A program file, and a place in it.
#[derive(Clone, Copy)]
pub struct Reader<'a> {
    pub file: &'a [u8],
    pub at: usize,
}

// The byte at a place of a file, and 0 past its end.
fn byte_in(bytes: &[u8], at: usize) -> u8
    ensures { result ≡ get_or bytes.now at 0 }
{
    bytes.get(at).copied().unwrap_or(0)
}

// A reader of a file at a place.
pub fn reader_at<'a>(file: &'a [u8], at: usize) -> Reader<'a>
    ensures { (result.file ≡ file.entry) × (result.at ≡ at) }
{
    Reader { file, at }
}

// The byte at a reader's place.
pub fn next<'a>(r: Reader<'a>) -> u8
    ensures { result ≡ get_or r.entry.file.now r.entry.at 0 }
{
    byte_in(r.file, r.at)
}

// The byte at a place of a program file, by a reader. Every byte of a body is read here: of codes, operands and expressions.
pub fn read_at(file: &[u8], at: usize) -> u8
    ensures { result ≡ get_or file.now at 0 }
{
    next(reader_at(file, at))
}
