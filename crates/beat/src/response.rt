ghost use Rattle.std.specs.Prelude.{◌≡◌, IfOk, length};
ghost use Rattle.beat.specs.Channel.{Right};
ghost use Rattle.beat.specs.Response.{beside, response_beats, response_laws};

use crate::channel::Channel;
use crate::header::Header;
use crate::lanes::Lanes;
use message::kind::Kind;
use message::refusal::Refusal;
use message::response::{Denial, ResponseHead, ResponseOpcode};

// A beat of a response: lane i in bits 8i to 8i + 7 of the lanes. Numbers and flags are as on the bus: a beat may have
// any, and wrong ones are refused; the denial goes beside it.
#[derive(Clone, Copy)]
pub struct ResponseBeat {
    pub opcode: u8,
    pub param: u8,
    pub size: u8,
    pub source: u8,
    pub denied: bool,
    pub corrupt: bool,
    pub lanes: u64,
}

// What travels beside a response's beats.
#[derive(Clone, Copy)]
pub struct Sideband {
    pub address: u32,
    pub denial: Denial,
}

// What goes beside each beat of a response.
impl From<ResponseHead> for Sideband {
    ghost from_gives = { λ head sideband. sideband ≡ beside head };

    fn from(head: ResponseHead) -> Sideband {
        Sideband {
            address: head.address,
            denial: head.denial,
        }
    }
}

// Channel D: responses, each beat with what travels beside it.
pub struct ChannelD;

impl Channel for ChannelD {
    type Kind = ResponseOpcode;

    type Head = ResponseHead;

    type Beat = (ResponseBeat, Sideband);

    ghost beats = { response_beats };

    ghost laws = { response_laws };

    fn header(head: ResponseHead) -> Header {
        Header {
            opcode: head.opcode,
            param: head.param,
            size: head.size,
            source: head.source,
            address: head.address,
            denied: head.denied,
        }
    }

    fn mask(_head: ResponseHead) -> u64 {
        0
    }

    fn with_mask(head: ResponseHead, _mask: u64) -> ResponseHead {
        head
    }

    // A denial is taken only with denied.
    fn start((beat, beside): (ResponseBeat, Sideband)) -> ResponseHead {
        let denial = if beat.denied {
            beside.denial
        } else {
            Denial::NONE
        };
        ResponseHead {
            opcode: beat.opcode,
            param: beat.param,
            size: beat.size,
            source: beat.source,
            address: beside.address,
            denied: beat.denied,
            denial,
        }
    }

    fn lanes((beat, _): (ResponseBeat, Sideband)) -> u64 {
        beat.lanes
    }

    fn lane_mask(_beat: (ResponseBeat, Sideband)) -> u8 {
        0
    }

    // Corrupt equals denied where there is data, and is not set elsewhere.
    fn own(
        opcode: ResponseOpcode,
        _lanes: Lanes,
        (beat, _): (ResponseBeat, Sideband),
    ) -> Result<(), Refusal> {
        if beat.corrupt == (beat.denied && opcode.has_data()) {
            Ok(())
        } else {
            Err(Refusal::Corrupt)
        }
    }

    fn check(head: ResponseHead, data: &[u8]) -> Result<ResponseOpcode, Refusal> {
        head.check(data)
    }

    fn beat(
        opcode: ResponseOpcode,
        head: ResponseHead,
        _mask: u8,
        lanes: u64,
    ) -> (ResponseBeat, Sideband) {
        let beat = ResponseBeat {
            opcode: head.opcode,
            param: head.param,
            size: head.size,
            source: head.source,
            denied: head.denied,
            corrupt: head.denied && opcode.has_data(),
            lanes,
        };
        (beat, Sideband::from(head))
    }
}
