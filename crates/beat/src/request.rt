ghost use Rattle.std.specs.Prelude.{◌≡◌, IfOk, length};
ghost use Rattle.beat.specs.Channel.{Right};
ghost use Rattle.beat.specs.Request.{request_beats, request_laws};

use crate::channel::Channel;
use crate::header::Header;
use crate::lanes::Lanes;
use message::kind::Kind;
use message::operation::Operation;
use message::refusal::Refusal;
use message::request::RequestHead;

// A beat of a request: lane i in bit i of the mask, and in bits 8i to 8i + 7 of the lanes. Opcode and param are numbers,
// as on the bus: a beat may have any, and a wrong one is refused.
#[derive(Clone, Copy)]
pub struct RequestBeat {
    pub opcode: u8,
    pub param: u8,
    pub size: u8,
    pub source: u8,
    pub address: u32,
    pub mask: u8,
    pub lanes: u64,
}

// Channel A: requests.
pub struct ChannelA;

impl Channel for ChannelA {
    type Kind = Operation;

    type Head = RequestHead;

    type Beat = RequestBeat;

    ghost beats = { request_beats };

    ghost laws = { request_laws };

    fn header(head: RequestHead) -> Header {
        Header {
            opcode: head.opcode,
            param: head.param,
            size: head.size,
            source: head.source,
            address: head.address,
            denied: false,
        }
    }

    fn mask(head: RequestHead) -> u64 {
        head.mask
    }

    fn with_mask(head: RequestHead, mask: u64) -> RequestHead {
        RequestHead { mask, ..head }
    }

    fn start(beat: RequestBeat) -> RequestHead {
        RequestHead {
            opcode: beat.opcode,
            param: beat.param,
            size: beat.size,
            source: beat.source,
            address: beat.address,
            mask: 0,
        }
    }

    fn lanes(beat: RequestBeat) -> u64 {
        beat.lanes
    }

    fn lane_mask(beat: RequestBeat) -> u8 {
        beat.mask
    }

    // The lane mask is the active lanes; that of a partial put has no bit but theirs.
    fn own(operation: Operation, lanes: Lanes, beat: RequestBeat) -> Result<(), Refusal> {
        let fits = match operation {
            Operation::PutPartialData => lanes.cover(beat.mask),
            _ => beat.mask == lanes.active(),
        };
        if fits { Ok(()) } else { Err(Refusal::Mask) }
    }

    fn check(head: RequestHead, data: &[u8]) -> Result<Operation, Refusal> {
        head.check(data)
    }

    fn beat(_operation: Operation, head: RequestHead, mask: u8, lanes: u64) -> RequestBeat {
        RequestBeat {
            opcode: head.opcode,
            param: head.param,
            size: head.size,
            source: head.source,
            address: head.address,
            mask,
            lanes,
        }
    }
}
