ghost use Rattle.std.specs.Prelude.{◌≡◌, [], ◌++◌, IfOk, fold, OnOk};
ghost use Rattle.vetting.specs.Report.{empty, counted, by_row, row_of, Reports};

use crate::address_map::AddressMap;
use crate::finding::Finding;
use sheet::lines::lines;
use std::alloc::{AllocError, Global};

// How many lines came to what.
#[derive(Clone, Copy, Default)]
pub struct Tally {
    pub legal: u64,
    pub refused: u64,
    pub unreadable: u64,
}

// A line by its number, with what there is to say of it.
#[derive(Clone, Copy)]
pub struct Row {
    pub line: u64,
    pub finding: Finding,
}

#[derive(Drop)]
pub struct Report {
    pub rows: Vec<Row>,
    pub tally: Tally,
}

impl Tally {
    pub fn new() -> Tally
        ensures { result ≡ empty }
    {
        Tally::default()
    }

    pub fn count(&mut self, finding: Finding)
        ensures { self.new ≡ counted self.old finding }
    {
        match finding {
            Finding::Request(_, Ok(_)) => self.legal = self.legal.saturating_add(1),
            Finding::Request(_, Err(_)) => self.refused = self.refused.saturating_add(1),
            Finding::Unreadable(_) => self.unreadable = self.unreadable.saturating_add(1),
        }
    }
}

impl Report {
    fn new(heap: Global) -> Report
        ensures rows { result.rows.items ≡ [] }
        ensures tally { result.tally ≡ empty }
    {
        Report {
            rows: Vec::new(heap),
            tally: Tally::new(),
        }
    }

    // What there is to say of one line more, if anything.
    fn note(&mut self, line: u64, finding: Option<Finding>) -> Result<(), AllocError>
        ensures rows { OnOk result (self.new.rows.items ≡ self.old.rows.items ++ row_of line finding) }
        ensures tally { OnOk result (self.new.tally ≡ fold by_row self.old.tally (row_of line finding)) }
    {
        if let Some(finding) = finding {
            self.rows.push(Row { line, finding })?;
            self.tally.count(finding);
        }
        Ok(())
    }
}

impl AddressMap {
    // A whole sheet: a row for each line of which there is something to say, and the counts of the rows.
    pub fn vet_sheet(self, heap: Global, sheet: &[u8]) -> Result<Report, AllocError>
        ensures { IfOk result (λ report. Reports self sheet.now report) }
    {
        let lines = lines(heap, sheet)?;
        let mut report = Report::new(heap);
        for (number, line) in (1..).zip(&lines) {
            let finding = self.vet_line(heap, line)?;
            report.note(number, finding)?;
        }
        Ok(report)
    }
}
