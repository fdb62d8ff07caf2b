// The ceiling program: for each even n from 4 to 12 a line with n and the runs that Simplify tries at T 0 on a held layer with one contour of n
// vertices, 2n - 2 (Note 8): a row of inside samples, traced and slid (specs/Reached.antt).
#![tactic(auto)]

ghost use Rattle.std.specs.Prelude.{◌≡◌, [], ◌≤◌};
ghost use Rattle.grid.specs.Layer.{layer_of, size_of};
ghost use Rattle.trace.specs.Counts.{figures_of};
ghost use Rattle.simplify.specs.Call.{outcome};
ghost use Rattle.ceiling.specs.Reached.{samples_byte, line_after, row_line, ceiling_line};

use grid::Refused;
use simplify::RunCounts;
use std::io;
use trace::Counted;

// The roll for a row of five samples: four slides (S, kind 1, column 4 or 2, row 0 or 1, offset 100), and E. `longest_roll` of specs/Reached.antt.
const LONGEST_ROLL: [u8; 29] =
    *b"S\x01\x04\0\0\0\x64S\x01\x04\0\x01\0\x64S\x01\x02\0\0\0\x64S\x01\x02\0\x01\0\x64E";

// A line of the program.
#[derive(Clone, Copy)]
pub struct Line {
    pub vertices: usize,
    pub tried: usize,
}

// The sticks that Counts answers, each with a vertex; 0 where it is refused.
fn sticks_counted(answer: Result<Counted, Refused>) -> usize
    ensures { result ≡ (figures_of answer).sticks }
{
    match answer {
        Ok(counts) => counts.sticks,
        Err(_) => 0,
    }
}

// The runs that Simplify tried; 0 where it is refused.
fn runs_tried(answer: Result<RunCounts, Refused>) -> usize
    ensures { result ≡ (outcome answer []).tried }
{
    match answer {
        Ok(counts) => counts.tried,
        Err(_) => 0,
    }
}

// The line of a layer of three rows: counted, traced, slid by a roll of commands and simplified at T 0. What Trace and Roll answer is not looked at: on the
// rows below neither is refused.
fn line_after(w: u16, bitmap: &[u8], table: &mut [u16], commands: &[u8]) -> Line
    ensures { result ≡ line_after (layer_of (size_of w 3) bitmap.now) commands.now table.old }
{
    let counted = trace::counts(w, 3, bitmap, table);
    let vertices = sticks_counted(counted);
    let _ = trace::trace(w, 3, bitmap, table);
    let _ = roll::roll(w, 3, bitmap, table, commands, 0);
    let simplified = simplify::simplify(w, 3, bitmap, table, 0);
    let tried = runs_tried(simplified);
    Line { vertices, tried }
}

// The byte of the middle row: a bit for each inside sample, from column 1 on.
fn samples_byte(samples: usize) -> u8
    requires { samples ≤ 5 }
    ensures { result ≡ samples_byte samples }
{
    ((2usize << samples) - 2) as u8
}

// The line of a row of so many inside samples. Its layer has two columns more, and so (samples + 1) * 3 + (samples + 2) * 2 edges; its roll is the end of
// the longest one, fourteen bytes for every second sample.
fn row_line(samples: usize) -> Line
    requires le_samples { 1 ≤ samples }
    requires samples_bound { samples ≤ 5 }
    ensures found { result ≡ row_line samples }
    ensures reached { result ≡ ceiling_line samples }
{
    let bitmap: [u8; 3] = [0, samples_byte(samples), 0];
    let mut table: [u16; 32] = [0; 32];
    let entries = 5 * samples + 7;
    let commands = LONGEST_ROLL;
    let start = 28 - samples / 2 * 14;
    line_after(
        (samples + 2) as u16,
        &bitmap,
        &mut table[0..entries],
        &commands[start..],
    )
}

fn write_line(out: &impl Print, samples: usize) -> io::Result<()>
    requires le_samples { 1 ≤ samples }
    requires samples_bound { samples ≤ 5 }
{
    let line = row_line(samples);
    println!(out; "{} {}", line.vertices, line.tried)
}

fn main(rt: HostRuntime) -> io::Result<()> {
    for samples in 1..=5 {
        write_line(&rt, samples)?;
    }
    Ok(())
}
