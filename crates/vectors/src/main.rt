// A program that reads a script of commands from standard input, carries them out, and prints a line for each call of the
// library, so that its answers can be compared with those of another program. A script that is wrong ends with a line '?'.
#![tactic(auto)]

mod call;
mod command;
mod digest;
mod line;
mod measure;
mod script;
mod state;
mod text;

use command::Command;
use script::Failure;
use state::State;
use std::io;
use std::io::Read;

// The longest bitmap and table that a script may set.
const BITMAP_LIMIT: usize = 131200;

const TABLE_LIMIT: usize = 2095200;

// More commands than any script has.
const COMMAND_LIMIT: u32 = 1000000;

// Carries out the commands of a script up to its end or up to one that is wrong.
fn run(
    input: &mut impl Read,
    out: &impl Print,
    bitmap: &mut [u8],
    table: &mut [u16],
) -> Result<(), Failure> {
    let mut state = State::default();
    for _ in 0..COMMAND_LIMIT {
        let Some(command) = Command::take(input)? else {
            return Ok(());
        };
        state.carry_out(input, out, bitmap, table, command)?;
    }
    Err(Failure::Wrong)
}

fn main(rt: HostRuntime) -> io::Result<()> {
    let mut bitmap = [0u8; BITMAP_LIMIT];
    let mut table = [0u16; TABLE_LIMIT];
    match run(&mut rt.stdin(), &rt, &mut bitmap, &mut table) {
        Ok(()) => Ok(()),
        Err(Failure::Wrong) => println!(rt; "?"),
        Err(Failure::Io(error)) => Err(error),
    }
}
