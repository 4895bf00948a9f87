ghost use Rattle.std.specs.Prelude.{◌≡◌, ◌+◌, ◌-◌, ◌*◌, ◌/◌, ◌%◌, ◌^◌, ◌<◌, ◌≤◌, length, ◌≢◌, nat_eq, true, cond};
ghost use Rattle.beat.specs.Width.{width_bytes};
ghost use Rattle.beat.specs.Lanes.{per_beat, first_lane, beat_count, beat_bytes, in_lanes, lane_bytes, active_lanes, put};

use crate::width::Width;

// How a message lies on the bus: its beats' active lanes, `count` of them from `first` on, and how many beats its data make.
#[derive(Clone, Copy)]
pub struct Lanes {
    pub first: usize,
    pub count: usize,
    beats: usize,
    ghost some: { 0 < count },
    ghost fits: { first + count ≤ 8 },
}

impl Lanes {
    pub(crate) fn of(width: Width, size: u8, address: u32) -> Lanes
        requires size { size ≤ 6 }
        requires aligned { address % 2 ^ size ≡ 0 }
        ensures first { result.first ≡ first_lane (width_bytes width) address }
        ensures count { result.count ≡ per_beat (width_bytes width) size }
        ensures beats { result.beats ≡ beat_count true (width_bytes width) size }
    {
        let bytes = u8::from(width) as usize;
        Lanes {
            first: address as usize % bytes,
            count: bytes.min(1 << size),
            beats: ((1 << size) / bytes).max(1),
        }
    }

    // How many beats the message has: without data, one.
    pub(crate) fn beats(self, has_data: bool) -> usize
        ensures { result ≡ cond has_data self.beats 1 }
    {
        if has_data { self.beats } else { 1 }
    }

    // The bytes in the active lanes, and 0 in the others.
    #[tactic(auto, using(crate::proofs::Digits::number_lanes))]
    pub(crate) fn pack(self, bytes: &[u8]) -> u64
        requires { self.first + length bytes.now ≤ 8 }
        ensures { result ≡ in_lanes self.first bytes.now }
    {
        let mut lanes = [0; 8];
        lanes[self.first..self.first + bytes.len()].copy_from_slice(bytes);
        u64::from_le_bytes(lanes)
    }

    // The bytes in the active lanes, as many as `out` has room for.
    #[tactic(auto, using(crate::proofs::Digits::digits_lanes))]
    pub(crate) fn unpack(self, lanes: u64, out: &mut [u8])
        requires { self.first + length out.old ≤ 8 }
        ensures { out.new ≡ lane_bytes self.first (length out.old) lanes }
    {
        let end = self.first + out.len();
        out.copy_from_slice(&lanes.to_le_bytes()[self.first..end]);
    }

    // The lanes of beat `index` of a message.
    #[tactic(auto, using(std::proofs::lemmas::List::drop_all, std::proofs::lemmas::List::take_all))]
    pub(crate) fn cut(self, data: &[u8], index: usize) -> u64
        requires { (length «data».now ≢ 0) → index * self.count + self.count ≤ length «data».now }
        ensures { result ≡ in_lanes self.first (beat_bytes self.count index «data».now) }
    {
        if data.is_empty() {
            return 0;
        }
        let at = index * self.count;
        self.pack(&data[at..at + self.count])
    }

    // Puts the bytes of beat `index` of a message in their place.
    #[tactic(auto, using(crate::proofs::Parts::put_part))]
    pub(crate) fn join(self, lanes: u64, index: usize, buffer: &mut [u8])
        requires { index * self.count + self.count ≤ length buffer.old }
        ensures { buffer.new ≡ put self.first self.count index lanes buffer.old }
    {
        let at = index * self.count;
        self.unpack(lanes, &mut buffer[at..at + self.count]);
    }

    // The lane mask of beat `index` of a message.
    #[tactic(auto, using(crate::proofs::Masks::masked, crate::proofs::Masks::masked_fits))]
    pub(crate) fn mask(self, mask: u64, index: usize) -> u8
        requires { index * self.count < 64 }
        ensures { result ≡ mask / 2 ^ (index * self.count) % 2 ^ self.count * 2 ^ self.first }
    {
        ((mask >> (index * self.count) & ones(self.count)) << self.first) as u8
    }

    // A message's mask, of which the bits before beat `index` have come, with those of its lane mask behind them.
    #[tactic(auto, using(crate::proofs::Masks::masked, std::proofs::lemmas::Nat::or_shifted))]
    pub(crate) fn joined(self, mask: u64, lane_mask: u8, index: usize) -> u64
        requires low { mask < 2 ^ (index * self.count) }
        requires room { index * self.count + self.count ≤ 64 }
        ensures { result ≡ lane_mask / 2 ^ self.first % 2 ^ self.count * 2 ^ (index * self.count) + mask }
    {
        let at = index * self.count;
        (u64::from(lane_mask >> self.first) & ones(self.count)) << at | mask
    }

    // All of the active lanes.
    #[tactic(auto, using(crate::proofs::Masks::all_ones))]
    pub(crate) fn active(self) -> u8
        ensures { result ≡ active_lanes self.first self.count }
    {
        self.mask(ones(self.count), 0)
    }

    // Whether a lane mask has no bit but those of active lanes.
    pub(crate) fn cover(self, lane_mask: u8) -> bool
        ensures { result ≡ nat_eq (lane_mask / 2 ^ self.first % 2 ^ self.count * 2 ^ self.first) lane_mask }
    {
        self.mask(u64::from(lane_mask >> self.first), 0) == lane_mask
    }
}

// The n lowest bits.
fn ones(n: usize) -> u64
    requires { n ≤ 8 }
    ensures { result ≡ 2 ^ n - 1 }
{
    (1 << n) - 1
}
