// The refusals, a case for each number, named by the cause (R46). The place stands in its own type.
ghost use Rattle.std.specs.Prelude.{◌≡◌};
ghost use Rattle.base.specs.Answers.{number_of, place_of};

use crate::kinds::Instr;
use std::fmt;

#[derive(Clone, Copy, PartialEq, Eq)]
pub enum Refusal {
    // 1
    EndsEarly(usize),
    // 2
    WrongMark,
    // 3
    OutOfRange(usize),
    // 4
    Misplaced(usize),
    // 5
    UnknownCode(usize),
    // 6
    BadExpression(usize),
    // 7
    NotWritable(usize),
    // 8
    BadLabel(usize),
    // 9
    LastNotEnd(usize),
    // 10
    NoRoom(u32),
    // 11
    BudgetSpent(Instr),
    // 12
    ShapesDiffer,
    // 13
    BadRow(usize),
    // 14
    BadStorage(usize),
}

impl Refusal {
    // R46: the number of a refusal.
    pub fn number(self) -> usize
        ensures { result ≡ number_of self }
    {
        match self {
            Refusal::EndsEarly(_) => 1,
            Refusal::WrongMark => 2,
            Refusal::OutOfRange(_) => 3,
            Refusal::Misplaced(_) => 4,
            Refusal::UnknownCode(_) => 5,
            Refusal::BadExpression(_) => 6,
            Refusal::NotWritable(_) => 7,
            Refusal::BadLabel(_) => 8,
            Refusal::LastNotEnd(_) => 9,
            Refusal::NoRoom(_) => 10,
            Refusal::BudgetSpent(_) => 11,
            Refusal::ShapesDiffer => 12,
            Refusal::BadRow(_) => 13,
            Refusal::BadStorage(_) => 14,
        }
    }

    // R46: its place.
    pub fn place(self) -> usize
        ensures { result ≡ place_of self }
    {
        match self {
            Refusal::WrongMark | Refusal::ShapesDiffer => 0,
            Refusal::NoRoom(p) => p as usize,
            Refusal::BudgetSpent(i) => i.0 as usize,
            Refusal::EndsEarly(p)
            | Refusal::OutOfRange(p)
            | Refusal::Misplaced(p)
            | Refusal::UnknownCode(p)
            | Refusal::BadExpression(p)
            | Refusal::NotWritable(p)
            | Refusal::BadLabel(p)
            | Refusal::LastNotEnd(p)
            | Refusal::BadRow(p)
            | Refusal::BadStorage(p) => p,
        }
    }
}

// R63: a refusal as it is shown, without the end of its line.
impl fmt::Display for Refusal {
    fn fmt<W: fmt::Write>(&self, f: &mut fmt::Formatter<W>) -> fmt::Result {
        let number = self.number();
        let place = self.place();
        write!(f, "refused {number} at {place}")
    }
}
