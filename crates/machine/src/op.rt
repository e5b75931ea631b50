ghost use Rattle.std.specs.Prelude.{◌≡◌, ◌++◌, Some, codes};
ghost use Rattle.std.specs.Fmt.{decimal, padded};
ghost use Rattle.machine.specs.Op.{op_number, mnemonic, uses_s, uses_t, uses_d, Decodes};

use std::error::Error;
use std::fmt;

// What an instruction does, each op at its number.
#[derive(Clone, Copy, PartialEq, Eq, PartialOrd, Ord, Debug)]
pub enum Op {
    Halt = 0,
    In,
    Out,
    Add,
    Sub,
    Mul,
    Div,
    Ld,
    St,
    Lda,
    Ldc,
    Jlt,
    Jle,
    Jgt,
    Jge,
    Jeq,
    Jne,
}

// A number that no op has.
#[derive(Clone, Copy, PartialEq, Eq, Debug)]
pub struct UnknownOp(pub u8);

impl Op {
    pub fn number(self) -> u8
        ensures { result ≡ op_number self }
    {
        // only `as` gives a case's number
        self as u8
    }

    // Whether an instruction of this op uses its field s; and so for t and d.
    pub(crate) fn uses_s(self) -> bool
        ensures { result ≡ uses_s (op_number self) }
    {
        !matches!(self, Op::Halt | Op::In | Op::Out | Op::Ldc)
    }

    pub(crate) fn uses_t(self) -> bool
        ensures { result ≡ uses_t (op_number self) }
    {
        matches!(self, Op::Add | Op::Sub | Op::Mul | Op::Div)
    }

    pub(crate) fn uses_d(self) -> bool
        ensures { result ≡ uses_d (op_number self) }
    {
        !matches!(
            self,
            Op::Halt | Op::In | Op::Out | Op::Add | Op::Sub | Op::Mul | Op::Div
        )
    }
}

impl TryFrom<u8> for Op {
    type Error = UnknownOp;

    ghost try_from_gives = { Decodes };

    fn try_from(number: u8) -> Result<Self, UnknownOp> {
        Ok(match number {
            0 => Op::Halt,
            1 => Op::In,
            2 => Op::Out,
            3 => Op::Add,
            4 => Op::Sub,
            5 => Op::Mul,
            6 => Op::Div,
            7 => Op::Ld,
            8 => Op::St,
            9 => Op::Lda,
            10 => Op::Ldc,
            11 => Op::Jlt,
            12 => Op::Jle,
            13 => Op::Jgt,
            14 => Op::Jge,
            15 => Op::Jeq,
            16 => Op::Jne,
            _ => return Err(UnknownOp(number)),
        })
    }
}

impl fmt::Display for Op {
    ghost output = { λ op. Some (mnemonic op) };

    ghost styled_output = { λ op spec. Some (padded spec (mnemonic op)) };

    fn fmt<W: fmt::Write>(&self, f: &mut fmt::Formatter<W>) -> fmt::Result {
        f.pad(match self {
            Op::Halt => "HALT",
            Op::In => "IN",
            Op::Out => "OUT",
            Op::Add => "ADD",
            Op::Sub => "SUB",
            Op::Mul => "MUL",
            Op::Div => "DIV",
            Op::Ld => "LD",
            Op::St => "ST",
            Op::Lda => "LDA",
            Op::Ldc => "LDC",
            Op::Jlt => "JLT",
            Op::Jle => "JLE",
            Op::Jgt => "JGT",
            Op::Jge => "JGE",
            Op::Jeq => "JEQ",
            Op::Jne => "JNE",
        })
    }
}

impl fmt::Display for UnknownOp {
    ghost output = { λ e. Some (codes "no op has number " ++ decimal e.0) };

    fn fmt<W: fmt::Write>(&self, f: &mut fmt::Formatter<W>) -> fmt::Result {
        let number = self.0;
        write!(f, "no op has number {number}")
    }
}

impl Error for UnknownOp {}
