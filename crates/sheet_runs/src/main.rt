// Runs the paper's sheets and damaged ones through the sheet's calls, and prints one line per case.
// What each line must be is said beside its case, from the paper (01, 'The event sheet' and 'Proved and run examples'); the file stdout has those lines.

#![tactic(auto)]

mod cases;

use std::fmt::{Result, Write};
use stream::{Printer, Unwritten};

fn run<W: Write>(output: &mut W) -> Result {
    cases::paper(output)?;
    cases::lengths(output)?;
    cases::rooms(output)?;
    cases::full(output)?;
    cases::damaged(output)?;
    cases::upper(output)
}

fn main(rt: HostRuntime) {
    let output = &mut rt.stdout();
    if run(&mut Printer { output }).is_err() {
        let _ = Unwritten.tell(&mut rt.stderr());
    }
}
