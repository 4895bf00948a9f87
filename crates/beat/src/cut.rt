ghost use Rattle.std.specs.Prelude.{◌≡◌, ◌+◌, ◌*◌, ◌≤◌, ◌≢◌, cond, length, replicate};
ghost use Rattle.beat.specs.Lanes.{beat_bytes, in_lanes};
ghost use Rattle.beat.specs.Channel.{cut_message, LaidOut};

use crate::channel::Channel;
use crate::lanes::Lanes;
use crate::width::Width;
use message::kind::Kind;
use message::refusal::Refusal;

// Beat `index` of a message, if it has so many. The data of a denied response go as zeros. The width is a number, here
// and where reading begins: any is answered, and one that is no width is refused.
pub fn cut<C: Channel>(
    head: C::Head,
    data: &[u8],
    width: u8,
    index: usize,
) -> Result<Option<C::Beat>, Refusal>
    ensures value { result ≡ cut_message C.Kind.kinds C.beats width head «data».now index }
    ensures lanes { LaidOut C.Kind.kinds C.beats width head «data».now index result }
{
    let width = Width::try_from(width)?;
    let kind = C::check(head, data)?;
    let header = C::header(head);
    let lanes = Lanes::of(width, header.size, header.address);
    if index >= lanes.beats(kind.has_data()) {
        return Ok(None);
    }
    let mask = lanes.mask(C::mask(head), index);
    let bytes = sent(lanes, header.denied, data, index);
    Ok(Some(C::beat(kind, head, mask, bytes)))
}

// The lanes of beat `index`, of which denied data are zeros.
#[tactic(auto, using(crate::proofs::Lays::zero_lanes))]
fn sent(lanes: Lanes, denied: bool, data: &[u8], index: usize) -> u64
    requires { (length «data».now ≢ 0) → index * lanes.count + lanes.count ≤ length «data».now }
    ensures { result ≡ in_lanes lanes.first (beat_bytes lanes.count index (cond denied (replicate (length «data».now) 0) «data».now)) }
{
    if denied { 0 } else { lanes.cut(data, index) }
}
