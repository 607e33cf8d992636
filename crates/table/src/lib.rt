// A row table in a lent slice, and the one function that appends to it (R53, R54).
#![tactic(auto)]

ghost use Rattle.std.specs.Prelude.{◌≡◌};
ghost use Rattle.rules.specs.Room.{room};
ghost use Rattle.table.specs.Append.{Kept, Appends};

use base::refusal::Refusal;

// The state of a row table: how many rows of a lent slice are used. It is a copy, so it can be kept, and gone back to.
#[derive(Clone, Copy)]
pub struct Table {
    pub used: usize,
}

impl Table {
    // No row is used.
    pub const EMPTY: Table = Table { used: 0 };
}

// The rows that are lent, and the state of the table in them. A row names others by their numbers, as in a set file (R41): there is no heap.
// Both are public: one may go on with rows that a slice holds already.
#[derive(Drop)]
pub struct LentTable<'a> {
    pub rows: &'a mut [u64],
    pub state: Table,
}

// R53: how many of so many rows may be used.
pub fn room_in(rows: usize) -> usize
    ensures { result ≡ room rows }
{
    rows.min(65535)
}

impl<'a> LentTable<'a> {
    // No row is used.
    pub fn empty(rows: &'a mut [u64]) -> LentTable<'a>
        ensures same { result.rows.ghost_name ≡ rows.entry.ghost_name }
        ensures empty { (result.rows.now ≡ rows.old) × (result.state.used ≡ 0) }
    {
        LentTable {
            rows,
            state: Table::EMPTY,
        }
    }

    // All rows that are lent.
    pub fn rows(&self) -> &[u64]
        ensures { result.now ≡ self.now.rows.now }
    {
        self.rows
    }

    // How many are used.
    pub fn used(&self) -> usize
        ensures { result ≡ self.now.state.used }
    {
        self.state.used
    }

    // R53, R54: stores a row's number after those that are used; or refuses, where no row is left, with as many as may be used.
    pub fn append(&mut self, entry: u64) -> Result<(), Refusal>
        ensures kept { Kept self.old self.new }
        ensures appends { Appends self.old entry result self.new }
    {
        let room = room_in(self.rows.len());
        if self.state.used < room {
            self.rows[self.state.used] = entry;
            self.state.used += 1;
            return Ok(());
        }
        Err(Refusal::NoRoom(room as u32))
    }
}
