// Runs the paper's examples, and rows, tables, stamps and heads that must be refused, through the lent calls, and prints one line per case.
// What each line must be is reasoned from the paper (01) beside its case; the file stdout has those lines.

#![tactic(auto)]

mod cases;
mod damage;
mod listing;
mod row;
mod stamps;
mod starts;

use std::fmt::{Result, Write};
use stream::{Printer, Unwritten};

fn run<W: Write>(output: &mut W) -> Result {
    cases::run(output)?;
    listing::run(output)?;
    damage::run(output)?;
    starts::run(output)?;
    stamps::run(output)
}

fn main(rt: HostRuntime) {
    let output = &mut rt.stdout();
    if run(&mut Printer { output }).is_err() {
        let _ = Unwritten.tell(&mut rt.stderr());
    }
}
