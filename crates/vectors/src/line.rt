// The line that answers a call: its letter, the number and the place of the refusal, or 0 and 0 if the call was done, its
// figures, the digests of its outputs, and the digest of the table.
use super::command::Call;
use report::Report;
use std::fmt::Display;
use std::io;

pub fn put(out: &impl Print, n: impl Display + Copy) -> io::Result<()> {
    print!(out; " {n}")
}

// The line up to the figures.
pub fn begin(out: &impl Print, call: Call, report: Report) -> io::Result<()> {
    out.write_all(&[call.letter()])?;
    put(out, report.number)?;
    put(out, report.place)?;
    let figures = [report.first, report.second, report.third];
    for figure in figures.iter().take(call.figures()) {
        put(out, *figure)?;
    }
    Ok(())
}

pub fn end(out: &impl Print, digest: u32) -> io::Result<()> {
    println!(out; " {digest}")
}
