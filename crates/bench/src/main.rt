// bench: works through the cases of document 01, "What the technician tries", that are not proved of the definitions, and
// through the lines that the format documents print, with the fills in our form. Of each case it says what it gave and what it
// should be, and marks a difference with WRONG; the last row counts them. That it is safe and ends is proved, no more.
#![tactic(auto)]

mod document_cases;
mod published;
mod replies;
mod report;
mod row;

use document_cases::{fit_cases, line_cases, scatter_cases, smooth_cases, start_cases};
use published::published_cases;
use report::Report;
use std::io::{Stdin, Write};

fn run<W: Write + Drop>(from: &mut Stdin, to: W) {
    let mut report = Report::new(to);
    smooth_cases(&mut report);
    fit_cases(&mut report);
    scatter_cases(&mut report);
    start_cases(&mut report);
    line_cases(&mut report);
    published_cases(&mut report, from);
    report.end();
}

// A read that fails counts as the end of the input, and a write that fails goes unnoticed.
fn main(rt: HostRuntime) {
    run(&mut rt.stdin(), rt.stdout());
}
