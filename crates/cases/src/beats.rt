ghost use Rattle.cases.specs.Beats.{WorkedBeats};

use beat::cut::cut;
use beat::request::{ChannelA, RequestBeat};
use message::refusal::Refusal;
use message::request::RequestHead;

// What the calls on beats answered.
#[derive(Clone, Copy)]
pub struct BeatCases {
    pub beat_of_2_at_6: Result<Option<RequestBeat>, Refusal>,
}

#[tactic(auto, unfolding(message::specs::Kind::placed, message::specs::Request::checked))]
pub fn beat_cases() -> BeatCases
    ensures { WorkedBeats result }
{
    let pair = RequestHead {
        opcode: 4,
        param: 0,
        size: 1,
        source: 0,
        address: 6,
        mask: 3,
    };
    BeatCases {
        beat_of_2_at_6: cut::<ChannelA>(pair, &[], 4, 0),
    }
}
