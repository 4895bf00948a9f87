// The worked cases: examples whose answers are known beforehand, each given by the product's own calls.
#![tactic(auto)]

pub mod beats;

ghost use Rattle.std.specs.Prelude.{◌≡◌, bit_and};
ghost use Rattle.cases.specs.Worked.{Worked};

use message::address_set::AddressSet;
use message::operation::Operation;
use message::refusal::Refusal;
use message::request::RequestHead;

// What the calls answered; addresses and masks in the names are hexadecimal.
#[derive(Clone, Copy)]
pub struct Cases {
    pub get_64_at_40: Result<Operation, Refusal>,
    pub get_64_at_44: Result<Operation, Refusal>,
    pub put_partial_fe: Result<Operation, Refusal>,
    pub put_full_fe: Result<Operation, Refusal>,
    pub set_1000_fff_contains_1fff: bool,
    pub set_1000_fff_contains_2000: bool,
    pub set_1000_fff_overlaps_0_1fff: bool,
}

pub fn worked_cases() -> Cases
    ensures { Worked result }
{
    let get = RequestHead {
        opcode: 4,
        param: 0,
        size: 6,
        source: 0,
        address: 0x40,
        mask: u64::MAX,
    };
    let put = RequestHead {
        opcode: 1,
        param: 0,
        size: 3,
        source: 0,
        address: 0,
        mask: 0xfe,
    };
    let page = set(0x1000, 0xfff);
    Cases {
        get_64_at_40: get.check(&[]),
        get_64_at_44: RequestHead {
            address: 0x44,
            ..get
        }
        .check(&[]),
        put_partial_fe: put.check(&[0; 8]),
        put_full_fe: RequestHead { opcode: 0, ..put }.check(&[0; 8]),
        set_1000_fff_contains_1fff: page.contains(0x1fff),
        set_1000_fff_contains_2000: page.contains(0x2000),
        set_1000_fff_overlaps_0_1fff: page.overlaps(set(0, 0x1fff)),
    }
}

fn set(base: u32, mask: u32) -> AddressSet
    requires { bit_and base mask ≡ 0 }
    ensures base { result.base ≡ base }
    ensures mask { result.mask ≡ mask }
{
    match AddressSet::new(base, mask) {
        Ok(set) => set,
        Err(_) => unreachable(),
    }
}

#[cfg(test)]
mod tests;
