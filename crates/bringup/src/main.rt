// Vets a request sheet: reads it from standard input and says of each request whether it is legal and where it lies.
#![tactic(auto)]

mod show;

use show::{show_map, show_row, show_tally};
use std::io::Read;
use vetting::address_map::AddressMap;

fn main(rt: HostRuntime) -> anyhow::Result<()> {
    run(&rt)
}

fn run(rt: &HostRuntime) -> anyhow::Result<()> {
    let mut sheet = Vec::new(rt.alloc());
    rt.stdin().read_to_end(&mut sheet)?;
    let map = AddressMap::bench()?;
    let report = map.vet_sheet(rt.alloc(), &sheet)?;
    show_map(rt, map)?;
    println!(rt; "line  operation             address   bytes  verdict")?;
    for row in &report.rows {
        show_row(rt, *row)?;
    }
    show_tally(rt, report.tally)?;
    Ok(())
}
