//! Works rows in both bound kinds, one row to a line of standard input, and prints what each
//! distance costs.
#![tactic(auto)]

mod input;
mod report;

use input::numbers;
use report::Report;
use std::io;

fn main(rt: HostRuntime) -> io::Result<()> {
    for (i, line) in rt.lines(rt.alloc()).enumerate() {
        let line = line?;
        let report = Report {
            rt: &rt,
            line: i.saturating_add(1),
        };
        match numbers(rt.alloc(), &line) {
            Ok(row) if row.is_empty() => {}
            Ok(row) => report.describe(&row)?,
            Err(fault) => report.refuse(fault)?,
        }
    }
    Ok(())
}
