ghost use Rattle.std.specs.Prelude.{◌≡◌, IfOk, length};
ghost use Rattle.beat.specs.Channel.{Beats, Right, Laws};

use crate::header::Header;
use crate::lanes::Lanes;
use message::kind::Kind;
use message::refusal::Refusal;

// A channel of the bus, by what it has of its own. Cutting and reading are written once, for every channel.
pub trait Channel {
    type Kind: Kind;

    type Head: Copy;

    type Beat: Copy;

    // The kinds have their own tables, since whole messages are judged by them without any beat.
    ghost beats: { Beats Self.Kind Self.Head Self.Beat };

    // What is alike in every beat of a message.
    fn header(head: Self::Head) -> Header
        ensures { result ≡ beats.header head };

    // The mask of a message; 0 on a channel without masks.
    fn mask(head: Self::Head) -> u64
        ensures { result ≡ beats.mask head };

    fn with_mask(head: Self::Head, mask: u64) -> Self::Head
        ensures { result ≡ beats.with_mask head mask };

    // The head of a beat's message, no bit of its mask having come.
    fn start(beat: Self::Beat) -> Self::Head
        ensures { result ≡ beats.start beat };

    fn lanes(beat: Self::Beat) -> u64
        ensures { result ≡ beats.lanes beat };

    fn lane_mask(beat: Self::Beat) -> u8
        ensures { result ≡ beats.lane_mask beat };

    // The judgement that only this channel makes of a beat.
    fn own(kind: Self::Kind, lanes: Lanes, beat: Self::Beat) -> Result<(), Refusal>
        ensures { result ≡ beats.own kind lanes.first lanes.count beat };

    // The kind of a message that can be cut, or the first refusal that applies.
    fn check(head: Self::Head, data: &[u8]) -> Result<Self::Kind, Refusal>
        ensures value { result ≡ beats.checked head «data».now }
        ensures right { IfOk result (λ k. Right Self.Kind.kinds k (beats.header head) (length «data».now)) };

    // A beat of a message, with its lane mask and its lanes.
    fn beat(kind: Self::Kind, head: Self::Head, mask: u8, lanes: u64) -> Self::Beat
        ensures { result ≡ beats.beat kind head mask lanes };

    ghost laws: { Laws beats };
}
