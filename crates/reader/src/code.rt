// The codes of instructions, one kind for each form of body (R10).
ghost use Rattle.std.specs.Prelude.{◌≡◌, ◌≤◌};
ghost use Rattle.reader.specs.Codes.{code_in};
ghost use Rattle.reader.specs.declared.code.Code.TheVariants.{Alone, Value, Variable, Label};

// R10, R17, R19, R20: the codes that nothing follows.
#[derive(Clone, Copy)]
pub enum AloneCode {
    Init,
    Not,
    Tand,
    Tor,
    Push,
    Pop,
    Drop,
    Dup,
    Fswp,
    Eswp,
    End,
}

// R10, R17, R19: the codes that an expression follows.
#[derive(Clone, Copy)]
pub enum ValueCode {
    Load,
    And,
    Or,
    Epush,
}

// R10, R18: the codes that a variable follows.
#[derive(Clone, Copy)]
pub enum VariableCode {
    Store,
    Set,
    Res,
    Redge,
    Fedge,
}

// R10, R20, R22: the codes that a label follows.
#[derive(Clone, Copy)]
pub enum LabelCode {
    Jp,
    Jpc,
    Js,
    Jsc,
}

// R10: a code, by what follows it.
#[derive(Clone, Copy)]
pub enum Code {
    Alone(AloneCode),
    Value(ValueCode),
    Variable(VariableCode),
    Label(LabelCode),
    // There is no such code.
    Unknown,
}

// R10: the code that a byte up to 10 is. Each range has a function of its own: one `match` of all codes costs each step of a scan more.
#[tactic(auto, unfolding(crate::specs::Codes::code_among))]
fn alone_code(b: u8) -> AloneCode
    requires { b ≤ 10 }
    ensures { Alone result ≡ code_in b }
{
    match b {
        0 => AloneCode::Init,
        1 => AloneCode::Not,
        2 => AloneCode::Tand,
        3 => AloneCode::Tor,
        4 => AloneCode::Push,
        5 => AloneCode::Pop,
        6 => AloneCode::Drop,
        7 => AloneCode::Dup,
        8 => AloneCode::Fswp,
        9 => AloneCode::Eswp,
        _ => AloneCode::End,
    }
}

// R10: the code that a byte from 16 to 19 is.
#[tactic(auto, unfolding(crate::specs::Codes::code_among))]
fn value_code(b: u8) -> ValueCode
    requires { (16 ≤ b) × (b ≤ 19) }
    ensures { Value result ≡ code_in b }
{
    match b {
        16 => ValueCode::Load,
        17 => ValueCode::And,
        18 => ValueCode::Or,
        _ => ValueCode::Epush,
    }
}

// R10: the code that a byte from 32 to 36 is.
#[tactic(auto, unfolding(crate::specs::Codes::code_among))]
fn variable_code(b: u8) -> VariableCode
    requires { (32 ≤ b) × (b ≤ 36) }
    ensures { Variable result ≡ code_in b }
{
    match b {
        32 => VariableCode::Store,
        33 => VariableCode::Set,
        34 => VariableCode::Res,
        35 => VariableCode::Redge,
        _ => VariableCode::Fedge,
    }
}

// R10: the code that a byte from 48 to 51 is.
#[tactic(auto, unfolding(crate::specs::Codes::code_among))]
fn label_code(b: u8) -> LabelCode
    requires { (48 ≤ b) × (b ≤ 51) }
    ensures { Label result ≡ code_in b }
{
    match b {
        48 => LabelCode::Jp,
        49 => LabelCode::Jpc,
        50 => LabelCode::Js,
        _ => LabelCode::Jsc,
    }
}

// R10: the code that a byte is.
#[tactic(auto, unfolding(crate::specs::Codes::code_among))]
pub fn code_of(b: u8) -> Code
    ensures { result ≡ code_in b }
{
    match b {
        0..=10 => Code::Alone(alone_code(b)),
        16..=19 => Code::Value(value_code(b)),
        32..=36 => Code::Variable(variable_code(b)),
        48..=51 => Code::Label(label_code(b)),
        _ => Code::Unknown,
    }
}
