ghost use Rattle.std.specs.Prelude.{◌≡◌, ◌≤◌};
ghost use Rattle.message.specs.Kind.{Kinds, Small, fitted, placed, length_of, measured};

use crate::refusal::Refusal;

// What a message is for, told by its opcode and param. Each channel has kinds of its own.
pub trait Kind: Copy {
    ghost kinds: { Kinds Self };

    // The kind of an opcode and a param; the opcode is judged first. Two numbers by name, and no `TryFrom` of a pair.
    fn read(opcode: u8, param: u8) -> Result<Self, Refusal>
        ensures { result ≡ kinds.of opcode param };

    // Whether its messages may have the size.
    fn fits(self, size: u8) -> bool
        ensures { result ≡ kinds.fits self size };

    // Whether its messages carry data.
    fn has_data(self) -> bool
        ensures { result ≡ kinds.carries self };

    // No message covers more than 64 bytes.
    ghost small: { Small kinds };
}

// The kind of a message at an address, or the first of the refusals that need no mask and no data. Heads and beats have
// the four among their own fields, so no struct holds them for this one call.
#[tactic(auto, unfolding(crate::specs::Kind::placed))]
pub fn place<K: Kind>(opcode: u8, param: u8, size: u8, address: u32) -> Result<K, Refusal>
    ensures { result ≡ placed K.kinds opcode param size address }
{
    let kind = K::read(opcode, param)?;
    fit(kind, size, address)
}

fn fit<K: Kind>(kind: K, size: u8, address: u32) -> Result<K, Refusal>
    ensures { result ≡ fitted K.kinds kind size address }
{
    if !kind.fits(size) {
        return Err(Refusal::Size);
    }
    if address % (1 << size) != 0 {
        return Err(Refusal::Address);
    }
    Ok(kind)
}

// Refuses data that are not as long as a message of this kind and size asks.
pub(crate) fn measure<K: Kind>(kind: K, size: u8, count: usize) -> Result<K, Refusal>
    requires { size ≤ 6 }
    ensures { result ≡ measured K.kinds kind size count }
{
    let length = if kind.has_data() { 1 << size } else { 0 };
    if count != length {
        return Err(Refusal::Data);
    }
    Ok(kind)
}
