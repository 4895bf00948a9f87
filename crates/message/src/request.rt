ghost use Rattle.std.specs.Prelude.{◌≡◌, ◌≤◌, min};
ghost use Rattle.message.specs.Request.{request, whole, mask_fits, filled, checked, TellsLegal};

use crate::kind::{measure, place};
use crate::operation::Operation;
use crate::refusal::Refusal;

// A request without its data: plain numbers as they come, of which no one knows yet whether they are legal. Bit i of
// the mask belongs to byte i. The data stand apart: every caller has them in a buffer of its own, as owner or borrower.
#[derive(Clone, Copy)]
pub struct RequestHead {
    // Opcode and param may be any number: a wrong one is refused by its number, and an enum could not hold it.
    pub opcode: u8,
    pub param: u8,
    pub size: u8,
    pub source: u8,
    pub address: u32,
    pub mask: u64,
}

impl RequestHead {
    // The operation of a legal request, or the first refusal that applies.
    #[tactic(auto, using(crate::proofs::Judged::placed_size), unfolding(crate::specs::Request::checked))]
    pub fn check(self, data: &[u8]) -> Result<Operation, Refusal>
        ensures value { result ≡ checked (request self «data».now) }
        ensures legal { TellsLegal (request self «data».now) result }
    {
        let operation = place(self.opcode, self.param, self.size, self.address)?;
        fill(operation, self.size, self.mask, data.len())
    }
}

// Refuses a mask that is not one of the size, and then data that are not as long as the operation asks.
fn fill(operation: Operation, size: u8, mask: u64, count: usize) -> Result<Operation, Refusal>
    requires { size ≤ 6 }
    ensures { result ≡ filled operation size mask count }
{
    if !mask_fits(operation, size, mask) {
        return Err(Refusal::Mask);
    }
    measure(operation, size, count)
}

// One bit for each byte of a message; no message is larger than size 6.
pub fn whole_mask(size: u8) -> u64
    ensures { result ≡ whole (min size 6) }
{
    match size {
        0 => 0x1,
        1 => 0x3,
        2 => 0xf,
        3 => 0xff,
        4 => 0xffff,
        5 => 0xffff_ffff,
        _ => 0xffff_ffff_ffff_ffff,
    }
}

fn mask_fits(operation: Operation, size: u8, mask: u64) -> bool
    ensures { result ≡ mask_fits operation (min size 6) mask }
{
    match operation {
        Operation::PutPartialData => mask <= whole_mask(size),
        _ => mask == whole_mask(size),
    }
}
