// The header of a file (R7).
ghost use Rattle.std.specs.Prelude.{◌≡◌, ◌&&◌, ◌≤◌, leb, length};
ghost use Rattle.rules.specs.Edition.{old};
ghost use Rattle.rules.specs.Shape.{check_shape, shape_at, read_header};
ghost use Rattle.base.specs.Answers.{shape_of, verdict_of};
ghost use Rattle.program.specs.Stages.{header_verdict};

use base::refusal::Refusal;
use base::shape::Shape;

// Whether a number lies between two bounds or on one of them.
pub fn within(low: usize, x: usize, high: usize) -> bool
    ensures { result ≡ (leb low x && leb x high) }
{
    low <= x && x <= high
}

// R1, R46: the depth is 2 to 16 (3 at 1), and there are 1 to 200 variables (3 at 2).
pub fn check_shape(shape: Shape) -> Result<(), Refusal>
    ensures { verdict_of result ≡ check_shape old (shape_of shape) }
{
    if !within(2, shape.depth as usize, 16) {
        return Err(Refusal::OutOfRange(1));
    }
    if !within(1, shape.vars(), 200) {
        return Err(Refusal::OutOfRange(2));
    }
    Ok(())
}

// R7: the shape that a header gives.
pub fn shape_at(file: &[u8]) -> Shape
    requires { 7 ≤ length file.now }
    ensures { shape_of result ≡ shape_at old file.now }
{
    Shape {
        depth: file[1] as u16,
        inputs: file[2] as u16,
        outputs: file[3] as u16,
        memory: file[4] as u16,
    }
}

// R7, R48: a header is whole (1), begins with the mark (2), and gives a shape within the limits (3).
pub fn read_header(file: &[u8], mark: u8) -> Result<Shape, Refusal>
    ensures { header_verdict result ≡ read_header old mark file.now }
{
    if file.len() < 7 {
        return Err(Refusal::EndsEarly(file.len()));
    }
    if file[0] != mark {
        return Err(Refusal::WrongMark);
    }
    let shape = shape_at(file);
    check_shape(shape)?;
    Ok(shape)
}
