// What the vector file can have a program do: the calls, and two edits of the buffers between them.
use std::fmt;

#[derive(Clone, Copy, Debug, PartialEq, Eq)]
pub enum Op {
    Open,
    Run,
    Report,
    Sweep,
    Show,
    Read,
    Place,
    Resize,
    Poke,
}

// A number that names none.
#[derive(Clone, Copy, Debug, PartialEq, Eq)]
pub struct Unknown;

impl Op {
    // The calls, in the order in which they are told of.
    pub const CALLS: [Op; 7] = [
        Op::Open,
        Op::Run,
        Op::Report,
        Op::Sweep,
        Op::Show,
        Op::Read,
        Op::Place,
    ];
}

impl TryFrom<u8> for Op {
    type Error = Unknown;

    fn try_from(number: u8) -> Result<Op, Unknown> {
        match number {
            1 => Ok(Op::Open),
            2 => Ok(Op::Run),
            3 => Ok(Op::Report),
            4 => Ok(Op::Sweep),
            5 => Ok(Op::Show),
            6 => Ok(Op::Read),
            7 => Ok(Op::Place),
            20 => Ok(Op::Resize),
            21 => Ok(Op::Poke),
            _ => Err(Unknown),
        }
    }
}

impl fmt::Display for Op {
    fn fmt<W: fmt::Write>(&self, f: &mut fmt::Formatter<W>) -> fmt::Result {
        let name = match self {
            Op::Open => "open",
            Op::Run => "run",
            Op::Report => "report",
            Op::Sweep => "sweep",
            Op::Show => "show",
            Op::Read => "read",
            Op::Place => "place",
            Op::Resize => "resize",
            Op::Poke => "poke",
        };
        write!(f, "{name}")
    }
}
