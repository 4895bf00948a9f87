use crate::address_set::AddressSet;
use crate::operation::{Operation, Prefetch};
use crate::refusal::Refusal;
use crate::request::RequestHead;
use crate::response::ResponseHead;
use std::test::Fail;

// opcode, param, size, address, mask, bytes of data, and the refusal's number, or 0 for legal
const REQUESTS: [(u8, u8, u8, u32, u64, usize, u8); 12] = [
    (0, 0, 3, 0x1000, 0xff, 8, 0),
    (1, 0, 2, 0x1004, 0, 4, 0),
    (4, 0, 6, 0xffff_ffc0, 0xffff_ffff_ffff_ffff, 0, 0),
    (255, 0, 0, 0, 1, 0, 1),
    (5, 2, 0, 0, 1, 0, 2),
    (4, 0, 255, 0, 0, 0, 3),
    (3, 3, 4, 0, 0xffff, 16, 3),
    (4, 0, 1, 0x1001, 3, 0, 4),
    (4, 0, 5, 0, 0x7fff_ffff, 0, 5),
    (1, 0, 0, 0, 2, 1, 5),
    (2, 4, 3, 8, 0xff, 4, 6),
    (5, 1, 2, 8, 0xf, 4, 6),
];

#[test]
fn requests_are_judged_by_the_table(rt: HostRuntime) {
    for (opcode, param, size, address, mask, bytes, number) in REQUESTS {
        let head = RequestHead {
            opcode,
            param,
            size,
            source: 0,
            address,
            mask,
        };
        let data = [0; 64];
        let told = match head.check(&data[0..bytes.min(64)]) {
            Ok(_) => 0,
            Err(refusal) => u8::from(refusal),
        };
        assert_eq!(rt; told, number);
    }
}

#[test]
fn responses_answer_their_requests(rt: HostRuntime) {
    let head = RequestHead {
        opcode: 4,
        param: 0,
        size: 2,
        source: 7,
        address: 0x20,
        mask: 0xf,
    };
    let read = ResponseHead::accept(Operation::Get, head);
    assert!(rt; read.opcode == 1 && read.source == 7 && !read.denied);
    let denied = ResponseHead::deny(Operation::Get, head, 2, 9);
    assert!(rt;
        denied.denied
            && denied.denial.cause == 2
            && denied.denial.place == 0x20
            && denied.denial.agent == 9
    );
    let hint = ResponseHead::accept(Operation::Intent(Prefetch::Read), head);
    assert!(rt; !hint.alike(&[], read, &[]));
    let other = ResponseHead {
        source: 8,
        address: 0x40,
        ..read
    };
    assert!(rt; read.alike(&[1, 2, 3, 4], other, &[1, 2, 3, 4]));
    assert!(rt; !read.alike(&[1, 2, 3, 4], other, &[1, 2, 3, 5]));
    assert!(rt; !read.alike(&[0; 4], denied, &[0; 4]));
}

#[test]
fn sets_hold_whole_requests(rt: HostRuntime) -> Result<(), Fail> {
    let set = AddressSet::new(0x1000_0000, 0xf)?;
    let get = RequestHead {
        opcode: 4,
        param: 0,
        size: 4,
        source: 0,
        address: 0x1000_0000,
        mask: 0xffff,
    };
    assert!(rt; set.contains(0x1000_000f) && !set.contains(0x1000_0010));
    assert!(rt; set.holds(get) && !set.holds(RequestHead { size: 5, ..get }));
    assert!(rt; !set.overlaps(AddressSet::new(0x1000_0010, 0xf)?));
    assert!(rt; AddressSet::new(0x10, 0x1f).is_err());
    Ok(())
}

// What a table of refusals needs: a width with its alignment and fill, and a precision.
#[test]
fn a_refusal_is_padded(rt: HostRuntime) -> Result<(), Fail> {
    let refusal = Refusal::Opcode;
    let right = format!(in rt.alloc(); "[{refusal:>16}]")?;
    assert_eq!(rt; right.as_str(), "[  no such opcode]");
    let filled = format!(in rt.alloc(); "[{refusal:*<16.7}]")?;
    assert_eq!(rt; filled.as_str(), "[no such*********]");
    Ok(())
}
