ghost use Rattle.std.specs.Prelude.{◌≡◌};
ghost use Rattle.beat.specs.Channel.{same_head, judged};

use crate::channel::Channel;
use crate::header::Header;
use crate::lanes::Lanes;
use crate::width::Width;
use message::kind::{Kind, place};
use message::refusal::Refusal;

// The kind of a beat's message, or the first refusal that applies. A later beat is compared with the head of the first.
#[tactic(auto, unfolding(crate::specs::Channel::judged))]
pub(crate) fn judge<C: Channel>(
    first: Option<C::Head>,
    width: Width,
    beat: C::Beat,
    room: usize,
) -> Result<C::Kind, Refusal>
    ensures { result ≡ judged C.Kind.kinds C.beats first width beat room }
{
    let header = C::header(C::start(beat));
    let kind: C::Kind = place(header.opcode, header.param, header.size, header.address)?;
    if !follows::<C>(first, header) {
        return Err(Refusal::HeadDiffers);
    }
    C::own(kind, Lanes::of(width, header.size, header.address), beat)?;
    if kind.has_data() && room < 1 << header.size {
        return Err(Refusal::BufferShort);
    }
    Ok(kind)
}

// Whether a beat has the header of the beats before it, if there are any.
fn follows<C: Channel>(first: Option<C::Head>, header: Header) -> bool
    ensures { result ≡ same_head C.Kind.kinds C.beats first header }
{
    first.is_none_or(|head| C::header(head) == header)
}
