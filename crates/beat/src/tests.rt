use crate::begun::Begun;
use crate::burst::{Burst, begin};
use crate::cut::cut;
use crate::request::ChannelA;
use crate::response::{ChannelD, ResponseBeat, Sideband};
use message::request::RequestHead;
use message::response::{Denial, ResponseHead};
use std::test::Fail;

// The bytes at addresses 6 and 7 go in lanes 6 mod 4 and 7 mod 4 of the one beat.
#[test]
fn a_narrow_put_lies_in_the_lanes_of_its_addresses(rt: HostRuntime) -> Result<(), Fail> {
    let put = RequestHead {
        opcode: 0,
        param: 0,
        size: 1,
        source: 3,
        address: 6,
        mask: 3,
    };
    let Some(beat) = cut::<ChannelA>(put, &[0x11, 0x22], 4, 0)? else {
        return Err(Fail::new("no beat"));
    };
    assert!(rt; beat.mask == 0xc && beat.lanes == 0x2211_0000);
    assert!(rt; cut::<ChannelA>(put, &[0x11, 0x22], 4, 1)?.is_none());
    match cut::<ChannelA>(put, &[0x11, 0x22], 3, 0) {
        Ok(_) => Err(Fail::new("a width of 3")),
        Err(refusal) => {
            assert!(rt; u8::from(refusal) == 16);
            Ok(())
        },
    }
}

#[test]
fn a_mask_is_cut_into_lane_masks(rt: HostRuntime) -> Result<(), Fail> {
    let put = RequestHead {
        opcode: 1,
        param: 0,
        size: 4,
        source: 0,
        address: 0x40,
        mask: 0xa55a,
    };
    let Some(first) = cut::<ChannelA>(put, &[0; 16], 8, 0)? else {
        return Err(Fail::new("no first beat"));
    };
    let Some(second) = cut::<ChannelA>(put, &[0; 16], 8, 1)? else {
        return Err(Fail::new("no second beat"));
    };
    assert!(rt; first.mask == 0x5a && second.mask == 0xa5);
    assert!(rt; cut::<ChannelA>(put, &[0; 16], 8, 2)?.is_none());
    Ok(())
}

// Four bytes to a beat, so two beats; a beat of another source in between changes nothing.
#[test]
fn denied_data_are_read_as_zeros(rt: HostRuntime) -> Result<(), Fail> {
    let denied = ResponseHead {
        opcode: 1,
        param: 0,
        size: 3,
        source: 2,
        address: 0x18,
        denied: true,
        denial: Denial {
            cause: 5,
            place: 0x18,
            agent: 1,
        },
    };
    let Some((beat, side)) = cut::<ChannelD>(denied, &[0xee; 8], 4, 1)? else {
        return Err(Fail::new("no second beat"));
    };
    assert!(rt; beat.denied && beat.corrupt && beat.lanes == 0);
    assert!(rt; side.address == 0x18 && side.denial.place == 0x18);
    assert!(rt; side.denial.cause == 5 && side.denial.agent == 1);
    let noisy = ResponseBeat {
        lanes: 0xffff_ffff,
        ..beat
    };
    let mut buffer = [7; 9];
    let beside = Sideband::from(denied);
    let mut number = 0;
    let read = match begin::<ChannelD>((noisy, beside), 4, &mut buffer)? {
        Begun::Whole(_) => None,
        Begun::Half(burst) => match burst.next(
            (ResponseBeat { source: 9, ..noisy }, beside),
            &mut buffer,
        ) {
            Ok(begun) => ended(begun),
            Err(back) => {
                let (refusal, burst) = back;
                number = u8::from(refusal);
                match burst.next((noisy, beside), &mut buffer) {
                    Ok(begun) => ended(begun),
                    Err(again) => {
                        again.1.give_up();
                        None
                    }
                }
            }
        },
    };
    assert!(rt; number == 19);
    let Some(head) = read else {
        return Err(Fail::new("beats are missing"));
    };
    assert!(rt; head.denied && head.denial.cause == 5 && head.address == 0x18);
    assert!(rt; buffer[0] == 0 && buffer[3] == 0 && buffer[4] == 0 && buffer[7] == 0);
    assert!(rt; buffer[8] == 7);
    Ok(())
}

fn ended(begun: Begun<ResponseHead, Burst<ChannelD>>) -> Option<ResponseHead> {
    match begun {
        Begun::Whole(head) => Some(head),
        Begun::Half(burst) => {
            burst.give_up();
            None
        }
    }
}
