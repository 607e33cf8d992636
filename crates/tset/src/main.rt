// Prints the transfer set of the program file on standard input, or its refusal (R64).
#![tactic(auto)]

ghost use Rattle.std.specs.Prelude.{◌≡◌, ◌≤◌, length, take};
ghost use Rattle.rules.specs.Lines as R;

use input::read_full;
use lines::print_built;
use std::io;

// R64: the text of a file of at most 34,312 bytes, built in the room that is fixed. Answers how many bytes the text has.
fn print_file(file: &[u8], text: &mut [u8]) -> usize
    requires { (length file.now ≤ 34312) × (230000 ≤ length text.old) }
    ensures text_after { take result text.new ≡ R.tset file.now }
    ensures upper_bound { result ≤ length text.new }
{
    let mut rows = [0u64; 8192];
    let mut numbers = [0u16; 8192];
    let mut heads = [0u16; 16384];
    let mut set = [0u8; 40957];
    print_built(file, &mut rows, &mut numbers, &mut heads, &mut set, text)
}

// Reads at most 34,312 bytes: what comes later cannot change the answer (R64).
fn main(rt: HostRuntime) -> io::Result<()> {
    let mut file = [0u8; 34312];
    let mut text = [0u8; 230000];
    let mut from = rt.stdin();
    let n = read_full(&mut from, &mut file)?;
    let r = print_file(&file[..n], &mut text);
    rt.write_all(&text[..r])
}
