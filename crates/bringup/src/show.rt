ghost use Rattle.std.specs.Prelude.{◌≡◌};
ghost use Rattle.bringup.specs.Show.{covered};

use message::address_set::AddressSet;
use message::kind::Kind;
use message::operation::Operation;
use message::refusal::Refusal;
use message::request::RequestHead;
use std::fmt::Display;
use std::{fmt, io};
use vetting::address_map::{AddressMap, Region};
use vetting::finding::{Finding, Legal};
use vetting::report::{Row, Tally};

// Functions that print, and no `Display`: the types are the library's, and how its table is laid out is this program's alone.
pub(crate) fn show_map(rt: &impl Print, map: AddressMap) -> io::Result<()> {
    show_region(rt, Region::Ram, map.ram)?;
    show_region(rt, Region::Mailbox, map.mailbox)?;
    println!(rt; "")
}

fn show_region(rt: &impl Print, region: Region, set: AddressSet) -> io::Result<()> {
    println!(rt;
        "region {region:<7}  base {:08x}  mask {:08x}",
        set.base(),
        set.mask()
    )
}

pub(crate) fn show_row(rt: &impl Print, row: Row) -> io::Result<()> {
    let line = row.line;
    match row.finding {
        Finding::Unreadable(fault) => println!(rt; "{line:>4}  cannot be read: {fault}"),
        Finding::Request(head, verdict) => {
            print!(rt; "{line:>4}  ")?;
            show_head(rt, head)?;
            show_verdict(rt, verdict)
        }
    }
}

fn show_head(rt: &impl Print, head: RequestHead) -> io::Result<()> {
    let operation = OrDash(Operation::read(head.opcode, head.param).ok());
    let address = head.address;
    let bytes = OrDash(covered(head.size));
    print!(rt; "{operation:<20}  {address:08x}  {bytes:>5}  ")
}

fn show_verdict(rt: &impl Print, verdict: Result<Legal, Refusal>) -> io::Result<()> {
    match verdict {
        Ok(
            Legal {
                region: Some(region),
                ..
            },
        ) => println!(rt; "legal, in {region}"),
        Ok(Legal { region: None, .. }) => println!(rt; "legal, in no region"),
        Err(refusal) => println!(rt; "refused {}: {refusal}", u8::from(refusal)),
    }
}

pub(crate) fn show_tally(rt: &impl Print, tally: Tally) -> io::Result<()> {
    let Tally {
        legal,
        refused,
        unreadable,
    } = tally;
    let read = legal.saturating_add(refused);
    println!(rt; "\nrequests read     {read:>6}")?;
    println!(rt; "  legal           {legal:>6}")?;
    println!(rt; "  refused         {refused:>6}")?;
    println!(rt; "lines unreadable  {unreadable:>6}")
}

// How many bytes a message of this size covers; above 6 there is no message.
fn covered(size: u8) -> Option<u8>
    ensures { result ≡ covered size }
{
    (size <= 6).then(|| 1 << size)
}

// A dash where there is nothing to show.
#[derive(Drop)]
struct OrDash<T>(Option<T>);

impl<T: fmt::Display> fmt::Display for OrDash<T> {
    fn fmt<W: fmt::Write>(&self, f: &mut fmt::Formatter<W>) -> fmt::Result {
        match &self.0 {
            Some(value) => value.fmt(f),
            None => f.pad("-"),
        }
    }
}
