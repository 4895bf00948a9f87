ghost use Rattle.std.specs.Prelude.{◌≡◌};
ghost use Rattle.message.specs.Request.{operation_kinds};
ghost use Rattle.message.specs.Sizes.{size_small};
ghost use Rattle.message.specs.Response.{response_to};

use crate::kind::Kind;
use crate::refusal::Refusal;
use crate::response::ResponseOpcode;
use std::fmt;

#[derive(Clone, Copy)]
pub enum Arithmetic {
    Min,
    Max,
    MinU,
    MaxU,
    Add,
}

#[derive(Clone, Copy)]
pub enum Logical {
    Xor,
    Or,
    And,
    Swap,
}

#[derive(Clone, Copy)]
pub enum Prefetch {
    Read,
    Write,
}

// What a request asks for: its opcode and param, read.
#[derive(Clone, Copy)]
pub enum Operation {
    PutFullData,
    PutPartialData,
    ArithmeticData(Arithmetic),
    LogicalData(Logical),
    Get,
    Intent(Prefetch),
}

impl Kind for Operation {
    ghost kinds = { operation_kinds };

    ghost small = { size_small };

    // The one place that knows the codes of requests.
    fn read(opcode: u8, param: u8) -> Result<Operation, Refusal> {
        match (opcode, param) {
            (0, 0) => Ok(Operation::PutFullData),
            (1, 0) => Ok(Operation::PutPartialData),
            (2, 0) => Ok(Operation::ArithmeticData(Arithmetic::Min)),
            (2, 1) => Ok(Operation::ArithmeticData(Arithmetic::Max)),
            (2, 2) => Ok(Operation::ArithmeticData(Arithmetic::MinU)),
            (2, 3) => Ok(Operation::ArithmeticData(Arithmetic::MaxU)),
            (2, 4) => Ok(Operation::ArithmeticData(Arithmetic::Add)),
            (3, 0) => Ok(Operation::LogicalData(Logical::Xor)),
            (3, 1) => Ok(Operation::LogicalData(Logical::Or)),
            (3, 2) => Ok(Operation::LogicalData(Logical::And)),
            (3, 3) => Ok(Operation::LogicalData(Logical::Swap)),
            (4, 0) => Ok(Operation::Get),
            (5, 0) => Ok(Operation::Intent(Prefetch::Read)),
            (5, 1) => Ok(Operation::Intent(Prefetch::Write)),
            (0..=5, _) => Err(Refusal::Param),
            _ => Err(Refusal::Opcode),
        }
    }

    fn fits(self, size: u8) -> bool {
        match self {
            Operation::ArithmeticData(_) | Operation::LogicalData(_) => size == 2 || size == 3,
            _ => size <= 6,
        }
    }

    fn has_data(self) -> bool {
        !matches!(self, Operation::Get | Operation::Intent(_))
    }
}

impl Operation {
    // The response that the request gets.
    pub fn response(self) -> ResponseOpcode
        ensures { result ≡ response_to self }
    {
        match self {
            Operation::PutFullData | Operation::PutPartialData => ResponseOpcode::AccessAck,
            Operation::ArithmeticData(_) | Operation::LogicalData(_) | Operation::Get =>
                ResponseOpcode::AccessAckData,
            Operation::Intent(_) => ResponseOpcode::HintAck,
        }
    }
}

// The operation's name in the specification, with its param's. By hand: std derives no `Display`.
impl fmt::Display for Operation {
    fn fmt<W: fmt::Write>(&self, f: &mut fmt::Formatter<W>) -> fmt::Result {
        f.pad(name(*self))
    }
}

fn name(operation: Operation) -> &'static str {
    match operation {
        Operation::PutFullData => "PutFullData",
        Operation::PutPartialData => "PutPartialData",
        Operation::ArithmeticData(Arithmetic::Min) => "ArithmeticData MIN",
        Operation::ArithmeticData(Arithmetic::Max) => "ArithmeticData MAX",
        Operation::ArithmeticData(Arithmetic::MinU) => "ArithmeticData MINU",
        Operation::ArithmeticData(Arithmetic::MaxU) => "ArithmeticData MAXU",
        Operation::ArithmeticData(Arithmetic::Add) => "ArithmeticData ADD",
        Operation::LogicalData(Logical::Xor) => "LogicalData XOR",
        Operation::LogicalData(Logical::Or) => "LogicalData OR",
        Operation::LogicalData(Logical::And) => "LogicalData AND",
        Operation::LogicalData(Logical::Swap) => "LogicalData SWAP",
        Operation::Get => "Get",
        Operation::Intent(Prefetch::Read) => "Intent PrefetchRead",
        Operation::Intent(Prefetch::Write) => "Intent PrefetchWrite",
    }
}
