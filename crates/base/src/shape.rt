// A shape and its cells.
ghost use Rattle.std.specs.Prelude.{◌≡◌, ◌<◌};
ghost use Rattle.rules.specs.Shape.{vars, flag, cells};
ghost use Rattle.base.specs.Answers.{shape_of};

use crate::kinds::Cell;

// R1: a stack depth and how many inputs, outputs and memory bits.
#[derive(Clone, Copy, PartialEq, Eq)]
pub struct Shape {
    pub depth: u16,
    pub inputs: u16,
    pub outputs: u16,
    pub memory: u16,
}

impl Shape {
    // R2: how many variables there are, V.
    pub fn vars(self) -> usize
        ensures { result ≡ vars (shape_of self) }
    {
        self.inputs as usize + self.outputs as usize + self.memory as usize
    }

    // R2: the flag's cell.
    pub fn flag(self) -> Cell
        requires { vars (shape_of self) < 65536 }
        ensures { result.0 ≡ flag (shape_of self) }
    {
        Cell(self.vars() as u16)
    }

    // R2: how many cells there are, C.
    pub fn cells(self) -> usize
        ensures { result ≡ cells (shape_of self) }
    {
        self.vars() + 1 + self.depth as usize
    }
}
