// The three kinds of number (R4). Slices hold raw numbers; everything else holds these.
ghost use Rattle.std.specs.Prelude.{◌≡◌, ◌+◌, ◌<◌};

// A cell's number.
#[derive(Clone, Copy, PartialEq, Eq, PartialOrd, Ord)]
pub struct Cell(pub u16);

// A row's number.
#[derive(Clone, Copy, PartialEq, Eq, PartialOrd, Ord)]
pub struct Row(pub u16);

// An instruction's number.
#[derive(Clone, Copy, PartialEq, Eq, PartialOrd, Ord)]
pub struct Instr(pub u16);

// R5: the cell that a byte names.
impl From<u8> for Cell {
    fn from(b: u8) -> Cell
        ensures { result.0 ≡ b }
    {
        Cell(u16::from(b))
    }
}

impl Instr {
    // R5: the instruction that a two-byte number names. It is no `From`, which has no `requires`.
    pub fn of_word(n: usize) -> Instr
        requires { n < 65536 }
        ensures { result.0 ≡ n }
    {
        Instr(n as u16)
    }
}

impl Row {
    // R26: the constants.
    pub const FALSE: Row = Row(0);

    pub const TRUE: Row = Row(1);

    // R26: the row of a cell. It is no `From`, which has no `requires`.
    pub fn of_cell(c: Cell) -> Row
        requires { c.0 < 65534 }
        ensures { result.0 ≡ 2 + c.0 }
    {
        Row(2 + c.0)
    }
}
