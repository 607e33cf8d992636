// Numbers in bytes (R5).
ghost use Rattle.std.specs.Prelude.{◌≡◌, ◌+◌, ◌<◌, ◌≤◌, length};
ghost use Rattle.rules.specs.Lists.{number_at};

// The two-byte number at a place.
pub fn word(file: &[u8], at: usize) -> usize
    requires { at + 2 ≤ length file.now }
    ensures { (result ≡ number_at 2 file.now at) × (result < 65536) }
{
    usize::from(u16::from_le_bytes([file[at], file[at + 1]]))
}
