use crate::join::join;
use crate::request::ChannelA;
use crate::response::ChannelD;
use beat::cut::cut;
use beat::request::RequestBeat;
use beat::response::{ResponseBeat, Sideband};
use message::request::RequestHead;
use message::response::Denial;
use std::test::Fail;

const PUT: RequestHead = RequestHead {
    opcode: 0,
    param: 0,
    size: 3,
    source: 5,
    address: 0x48,
    mask: 0xff,
};

#[test]
fn a_cut_request_is_joined_again(rt: HostRuntime) -> Result<(), Fail> {
    let data = [1, 2, 3, 4, 5, 6, 7, 8];
    let first = cut::<ChannelA>(PUT, &data, 4, 0)?.ok_or("no first beat")?;
    let second = cut::<ChannelA>(PUT, &data, 4, 1)?.ok_or("no second beat")?;
    assert!(rt; first.lanes == 0x0403_0201 && second.lanes == 0x0807_0605);
    let mut buffer = [0xee; 9];
    let Ok(Some(joined)) = join::<ChannelA>(&[first, second], 4, &mut buffer) else {
        return Err(Fail::new("not joined"));
    };
    assert!(rt; joined.beats == 2 && joined.head.source == 5 && joined.head.mask == 0xff);
    assert!(rt; buffer[0] == 1 && buffer[7] == 8 && buffer[8] == 0xee);
    Ok(())
}

#[test]
fn a_list_tells_where_it_stops(rt: HostRuntime) -> Result<(), Fail> {
    let data = [1, 2, 3, 4, 5, 6, 7, 8];
    let first = cut::<ChannelA>(PUT, &data, 4, 0)?.ok_or("no first beat")?;
    let other = RequestBeat { source: 6, ..first };
    let mut buffer = [0xee; 8];
    assert!(rt; matches!(join::<ChannelA>(&[first], 4, &mut buffer), Ok(None)));
    match join::<ChannelA>(&[first, other], 4, &mut buffer) {
        Err(stop) => assert!(rt; stop.beat == 1 && u8::from(stop.refusal) == 19),
        Ok(_) => return Err(Fail::new("the head differs")),
    }
    assert!(rt; buffer[3] == 4 && buffer[4] == 0xee);
    Ok(())
}

// Lanes that carry no byte may hold anything, and so may the lanes of denied data.
#[test]
fn a_reader_ignores_what_it_must(rt: HostRuntime) {
    let narrow = RequestBeat {
        opcode: 0,
        param: 0,
        size: 1,
        source: 0,
        address: 6,
        mask: 0b1100,
        lanes: 0x2211_dead,
    };
    let mut buffer = [0; 2];
    assert!(rt; join::<ChannelA>(&[narrow], 4, &mut buffer).is_ok());
    assert!(rt; buffer[0] == 0x11 && buffer[1] == 0x22);
    let denied = ResponseBeat {
        opcode: 1,
        param: 0,
        size: 1,
        source: 0,
        denied: true,
        corrupt: true,
        lanes: 0xffff,
    };
    let beside = Sideband {
        address: 6,
        denial: Denial::NONE,
    };
    assert!(rt; join::<ChannelD>(&[(denied, beside)], 2, &mut buffer).is_ok());
    assert!(rt; buffer[0] == 0 && buffer[1] == 0);
}
