ghost use Rattle.std.specs.Prelude.{◌≡◌, Some, Ok, Err};
ghost use Rattle.std.specs.Fmt.{padded};
ghost use Rattle.vetting.specs.AddressMap.{region_of};
ghost use Rattle.vetting.specs.Region.{name_of};

use message::address_set::AddressSet;
use message::refusal::Refusal;
use message::request::RequestHead;
use std::fmt;

#[derive(Clone, Copy)]
pub enum Region {
    Ram,
    Mailbox,
}

// By hand: std derives no `Display`.
impl fmt::Display for Region {
    ghost output = { λ region. Some (name_of region) };

    ghost styled_output = { λ region spec. Some (padded spec (name_of region)) };

    fn fmt<W: fmt::Write>(&self, f: &mut fmt::Formatter<W>) -> fmt::Result {
        f.pad(match self {
            Region::Ram => "ram",
            Region::Mailbox => "mailbox",
        })
    }
}

// The bench's two regions.
#[derive(Clone, Copy)]
pub struct AddressMap {
    pub ram: AddressSet,
    pub mailbox: AddressSet,
}

impl AddressMap {
    // 4,096 bytes of RAM at 80000000, and the 16 bytes of a mailbox at 10000000.
    pub fn bench() -> Result<AddressMap, Refusal>
        ensures { elim result [ Ok m ↦ (m.ram.base ≡ 0x80000000) × (m.ram.mask ≡ 0xfff) × (m.mailbox.base ≡ 0x10000000) × (m.mailbox.mask ≡ 0xf) | Err e ↦ ⊥ ] }
    {
        let ram = AddressSet::new(0x8000_0000, 0xfff)?;
        let mailbox = AddressSet::new(0x1000_0000, 0xf)?;
        Ok(AddressMap { ram, mailbox })
    }

    // The region that a request lies in.
    pub fn region(self, head: RequestHead) -> Option<Region>
        ensures { result ≡ region_of self head }
    {
        if self.ram.holds(head) {
            Some(Region::Ram)
        } else if self.mailbox.holds(head) {
            Some(Region::Mailbox)
        } else {
            None
        }
    }
}
