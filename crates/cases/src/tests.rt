use crate::beats::beat_cases;
use crate::worked_cases;
use sheet::fault::{Fault, Field};
use sheet::line::{LineError, read_line};
use std::test::Fail;

// The table is proved; this runs the code that the compiler made of it.
#[test]
fn worked_cases_run(rt: HostRuntime) {
    let cases = worked_cases();
    assert!(rt; cases.get_64_at_40.is_ok() && cases.put_partial_fe.is_ok());
    assert!(rt; cases.set_1000_fff_contains_1fff && !cases.set_1000_fff_contains_2000);
    assert!(rt; cases.set_1000_fff_overlaps_0_1fff);
}

#[test]
fn a_line_is_read_as_its_request(rt: HostRuntime) -> Result<(), Fail> {
    let line = b"01 0\t1 7 4000fffe 3 cAfE # two bytes";
    let Some(entry) = read_line(rt.alloc(), line)? else {
        return Err(Fail::new("no request"));
    };
    assert!(rt; entry.head.opcode == 1 && entry.head.source == 7);
    assert!(rt; entry.head.address == 0x4000_fffe && entry.head.mask == 3);
    assert!(rt; entry.data.len() == 2);
    assert!(rt; entry.data[0] == 0xca && entry.data[1] == 0xfe);
    Ok(())
}

#[test]
fn the_first_fault_of_a_line_is_told(rt: HostRuntime) -> Result<(), Fail> {
    let heap = rt.alloc();
    let short = read_line(heap, b"x 0 1 7 40");
    assert!(rt; matches!(&short, Err(LineError::Fault(Fault::WordCount))));
    let param = read_line(heap, b"4 256 x 7 40 3");
    assert!(rt; matches!(&param, Err(LineError::Fault(Fault::Field(Field::Param)))));
    let odd = read_line(heap, b"4 0 1 7 40 3 cAf");
    assert!(rt; matches!(&odd, Err(LineError::Fault(Fault::Field(Field::Data)))));
    let comment = read_line(heap, b" \t # 4 0 1 7 40 3\r");
    assert!(rt; matches!(&comment, Ok(None)));
    Ok(())
}

#[test]
fn beat_cases_run(rt: HostRuntime) -> Result<(), Fail> {
    match beat_cases().beat_of_2_at_6 {
        Ok(Some(beat)) => {
            assert!(rt; beat.mask == 0xc);
            Ok(())
        },
        _ => Err(Fail::new("no beat")),
    }
}
