ghost use Rattle.std.specs.Prelude.{◌≡◌, IfOk};
ghost use Rattle.message.specs.Request.{request};
ghost use Rattle.sheet.specs.Line.{line_of};
ghost use Rattle.vetting.specs.Finding.{verdict_of, finding_of};

use crate::address_map::{AddressMap, Region};
use message::operation::Operation;
use message::refusal::Refusal;
use message::request::RequestHead;
use sheet::fault::Fault;
use sheet::line::{LineError, read_line};
use std::alloc::{AllocError, Global};

// A legal request lies in a region, or in none.
#[derive(Clone, Copy)]
pub struct Legal {
    pub operation: Operation,
    pub region: Option<Region>,
}

// What there is to say of a line. No `Result`: both are rows of a report, and a fault is no failure to pass on.
#[derive(Clone, Copy)]
pub enum Finding {
    Request(RequestHead, Result<Legal, Refusal>),
    Unreadable(Fault),
}

impl AddressMap {
    pub fn vet(self, head: RequestHead, data: &[u8]) -> Result<Legal, Refusal>
        ensures { result ≡ verdict_of self (request head «data».now) }
    {
        let operation = head.check(data)?;
        let region = self.region(head);
        Ok(Legal { operation, region })
    }

    // What there is to say of a line of a sheet, if anything.
    pub fn vet_line(self, heap: Global, line: &[u8]) -> Result<Option<Finding>, AllocError>
        ensures { IfOk result (λ finding. finding ≡ finding_of self (line_of line.now)) }
    {
        match read_line(heap, line) {
            Ok(None) => Ok(None),
            Ok(Some(entry)) => {
                let verdict = self.vet(entry.head, &entry.data);
                Ok(Some(Finding::Request(entry.head, verdict)))
            }
            Err(LineError::Fault(fault)) => Ok(Some(Finding::Unreadable(fault))),
            // Only want of memory goes on as an error: a fault is what there is to say.
            Err(LineError::Memory(memory)) => Err(memory),
        }
    }
}
