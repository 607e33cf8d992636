// The expressions of a program file (R11).
ghost use Rattle.std.specs.Prelude.{◌≡◌};
ghost use Rattle.rules.specs.Expr.{announced};
ghost use Rattle.program.specs.Stages.{operands_of};
ghost use Rattle.program.specs.Expr.{Skips};

use base::refusal::Refusal;
use reader::read_at;

// R11: how many operands follow the first byte of an expression.
#[derive(Clone, Copy)]
pub enum Operands {
    Zero,
    One,
    Two,
    // There is no such byte.
    Bad,
}

// R11: what a first byte announces, where there are `vars` variables.
fn announce(vars: usize, b: u8) -> Operands
    ensures { result ≡ operands_of (announced vars b) }
{
    if (b as usize) < vars {
        return Operands::Zero;
    }
    match b {
        250 | 251 => Operands::Zero,
        252 => Operands::One,
        253 | 254 => Operands::Two,
        _ => Operands::Bad,
    }
}

// R11, R48: the expression at a place, which must end by `stop`. Before each byte that is due: it lies past `stop` (6), the file
// has ended (1), the byte is not allowed (6).
pub fn read_expr(file: &[u8], vars: usize, stop: usize, at: usize) -> Result<usize, Refusal>
    ensures { Skips file.now vars stop at result }
{
    if stop <= at {
        return Err(Refusal::BadExpression(stop));
    }
    if file.len() <= at {
        return Err(Refusal::EndsEarly(file.len()));
    }
    match announce(vars, read_at(file, at)) {
        Operands::Zero => Ok(at + 1),
        Operands::One => read_expr(file, vars, stop, at + 1),
        Operands::Two => {
            let next = read_expr(file, vars, stop, at + 1)?;
            read_expr(file, vars, stop, next)
        }
        Operands::Bad => Err(Refusal::BadExpression(at)),
    }
}
