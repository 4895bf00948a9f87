ghost use Rattle.std.specs.Prelude.{◌≡◌, ℕ, ◌≤◌, true, false, List, length, replicate, Decides};
ghost use Rattle.message.specs.Sizes.{response_small};
ghost use Rattle.message.specs.Response.{response, response_to, response_kinds, response_number, response_length, response_checked, not_denied, head_to, Answers, Alike, TellsWhole};

use crate::kind::{Kind, measure, place};
use crate::operation::Operation;
use crate::refusal::Refusal;
use crate::request::RequestHead;

#[derive(Clone, Copy)]
pub enum ResponseOpcode {
    AccessAck = 0,
    AccessAckData = 1,
    HintAck = 2,
}

// The number that a response carries for its opcode.
impl From<ResponseOpcode> for u8 {
    ghost from_gives = { λ opcode number. number ≡ response_number opcode };

    fn from(opcode: ResponseOpcode) -> u8 {
        opcode as u8
    }
}

impl Kind for ResponseOpcode {
    ghost kinds = { response_kinds };

    ghost small = { response_small };

    // The one place that knows the codes of responses.
    fn read(opcode: u8, param: u8) -> Result<ResponseOpcode, Refusal> {
        match (opcode, param) {
            (0, 0) => Ok(ResponseOpcode::AccessAck),
            (1, 0) => Ok(ResponseOpcode::AccessAckData),
            (2, 0) => Ok(ResponseOpcode::HintAck),
            (0..=2, _) => Err(Refusal::Param),
            _ => Err(Refusal::Opcode),
        }
    }

    fn fits(self, size: u8) -> bool {
        size <= 6
    }

    fn has_data(self) -> bool {
        matches!(self, ResponseOpcode::AccessAckData)
    }
}

// Why a request was denied, at which address, and by which agent: all 0 where it was not. The cause is a
// number: whatever comes beside a response is taken as it is.
#[derive(Clone, Copy)]
pub struct Denial {
    pub cause: u8,
    pub place: u32,
    pub agent: u8,
}

impl Denial {
    pub const NONE: Denial = Denial {
        cause: 0,
        place: 0,
        agent: 0,
    };
}

// A response without its data: plain numbers as they come, also wrong ones. So `denied` stands beside the denial, and
// not an `Option`: that could not hold a head that is not denied and has a denial, and so would ask more of callers.
#[derive(Clone, Copy)]
pub struct ResponseHead {
    // Opcode and param may be any number, as those of a request, and the data stand apart, as those of a request.
    pub opcode: u8,
    pub param: u8,
    pub size: u8,
    pub source: u8,
    pub address: u32,
    pub denied: bool,
    pub denial: Denial,
}

impl ResponseHead {
    // The response to a request that is carried out.
    pub fn accept(operation: Operation, request: RequestHead) -> ResponseHead
        ensures value { result ≡ head_to operation request false not_denied }
        ensures answers { (bytes : List ℕ) → length bytes ≡ response_length (response_to operation) request.size → Answers operation request (response result bytes) }
    {
        answer(operation, request, false, Denial::NONE)
    }

    // The response to a request that an agent denies; the place of a denial is the request's address.
    pub fn deny(operation: Operation, request: RequestHead, cause: u8, agent: u8) -> ResponseHead
        ensures value { result ≡ head_to operation request true (record { cause = cause; place = request.address; agent = agent }) }
        ensures answers { Answers operation request (response result (replicate (response_length (response_to operation) request.size) 0)) }
    {
        let place = request.address;
        answer(
            operation,
            request,
            true,
            Denial {
                cause,
                place,
                agent,
            },
        )
    }

    // The opcode of a response whose opcode, param, size, address and length of data are right, or the first refusal.
    #[tactic(auto, using(crate::proofs::Responding::placed_size), unfolding(crate::specs::Response::response_checked))]
    pub fn check(self, data: &[u8]) -> Result<ResponseOpcode, Refusal>
        ensures value { result ≡ response_checked (response self «data».now) }
        ensures whole { TellsWhole (response self «data».now) result }
    {
        let opcode = place(self.opcode, self.param, self.size, self.address)?;
        measure(opcode, self.size, data.len())
    }

    // Whether two responses, each with its data, agree in opcode, size, denied and data: equal in three fields, so no derive.
    pub fn alike(self, data: &[u8], other: ResponseHead, other_data: &[u8]) -> bool
        ensures { Decides result (Alike (response self «data».now) (response other other_data.now)) }
    {
        (self.opcode, self.size, self.denied) == (other.opcode, other.size, other.denied)
            && data == other_data
    }
}

fn answer(operation: Operation, request: RequestHead, denied: bool, denial: Denial) -> ResponseHead
    ensures { result ≡ head_to operation request denied denial }
{
    ResponseHead {
        opcode: u8::from(operation.response()),
        param: 0,
        size: request.size,
        source: request.source,
        address: request.address,
        denied,
        denial,
    }
}
