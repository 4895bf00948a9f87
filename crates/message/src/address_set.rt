ghost use Rattle.std.specs.Prelude.{◌≡◌, ◌%◌, ◌^◌, Ok, Err, Decides, ◌≢◌, bit_and};
ghost use Rattle.message.specs.AddressSet.{agree_outside, low_bits_set, contains, overlap, lies_in, SameDigits, Meet, EveryByte};

use crate::refusal::Refusal;
use crate::request::RequestHead;

// The addresses that differ from the base only where the mask is set.
#[derive(Clone, Copy)]
pub struct AddressSet {
    base: u32,
    mask: u32,
    ghost apart: { bit_and base mask ≡ 0 },
}

impl AddressSet {
    pub fn new(base: u32, mask: u32) -> Result<AddressSet, Refusal>
        ensures { elim result [ Ok s ↦ (bit_and base mask ≡ 0) × (s.base ≡ base) × (s.mask ≡ mask) | Err e ↦ (bit_and base mask ≢ 0) × (e ≡ Refusal.BaseInMask) ] }
    {
        if base & mask != 0 {
            return Err(Refusal::BaseInMask);
        }
        Ok(AddressSet { base, mask })
    }

    pub fn base(self) -> u32
        ensures { result ≡ self.base }
    {
        self.base
    }

    pub fn mask(self) -> u32
        ensures { result ≡ self.mask }
    {
        self.mask
    }

    pub fn contains(self, address: u32) -> bool
        ensures value { result ≡ contains self.base self.mask address }
        ensures digits { Decides result (SameDigits self.mask address self.base) }
    {
        agree_outside(self.mask, address, self.base)
    }

    // Whether some address lies in both sets.
    pub fn overlaps(self, other: AddressSet) -> bool
        ensures value { result ≡ overlap self.base self.mask other.base other.mask }
        ensures meet { Decides result (Meet self.base self.mask other.base other.mask) }
    {
        bases_agree(self, other)
    }

    // Whether a request lies in the set: every byte of it does, where its address is a multiple of its size.
    pub fn holds(self, head: RequestHead) -> bool
        ensures value { result ≡ lies_in self.base self.mask head }
        ensures bytes { head.address % 2 ^ head.size ≡ 0 → Decides result (EveryByte self.base self.mask head) }
    {
        lies_in(self, head)
    }
}

// The formulas; the calls above say what they mean.
fn agree_outside(mask: u32, a: u32, b: u32) -> bool
    ensures { result ≡ agree_outside mask a b }
{
    (a ^ b) & !mask == 0
}

fn bases_agree(one: AddressSet, other: AddressSet) -> bool
    ensures { result ≡ overlap one.base one.mask other.base other.mask }
{
    agree_outside(one.mask | other.mask, one.base, other.base)
}

fn lies_in(set: AddressSet, head: RequestHead) -> bool
    ensures { result ≡ lies_in set.base set.mask head }
{
    agree_outside(set.mask, head.address, set.base) && low_bits_set(set.mask, head.size)
}

fn low_bits_set(mask: u32, count: u8) -> bool
    ensures { result ≡ low_bits_set mask count }
{
    u32::from(count) <= mask.trailing_ones()
}
