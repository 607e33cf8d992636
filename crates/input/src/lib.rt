// Reads bytes until what was lent is full.
#![tactic(auto)]

ghost use Rattle.std.specs.Prelude.{◌≡◌, ◌≤◌, IfOk, length};

use std::io;
use std::io::Read;

// Reads until what was lent is full or the input ends, and says how many bytes came. `read_exact` does not say that.
pub fn read_full(from: &mut impl Read, lent: &mut [u8]) -> io::Result<usize>
    ensures came { IfOk result (λ n. n ≤ length lent.old) }
    ensures kept { length lent.new ≡ length lent.old }
{
    let mut done = 0;
    while done < lent.len() {
        let got = from.read(&mut lent[done..])?;
        if got == 0 {
            break;
        }
        done += got;
    }
    Ok(done)
}
