// The commands of an edit roll: question 8 over the whole roll, and a command taken apart.
ghost use Rattle.std.specs.Prelude.{◌≡◌, ◌+◌, ◌≤◌, ◌<◌, length, eqb};
ghost use Rattle.grid.specs.declared.refusal.Refusal.TheVariants.{Malformed};
ghost use Rattle.edit.specs.Edits.{ask_at};
ghost use Rattle.roll.specs.Commands.{two_bytes, named_at, command_at, width, written, command_of, roll_answer};

use edit::Named;
use grid::{Answer, Refusal};

// 16 bits, low byte first.
fn two_bytes(roll: &[u8], at: usize) -> usize
    requires { at + 2 ≤ length roll.now }
    ensures { result ≡ two_bytes roll.now at }
{
    usize::from(u16::from_le_bytes([roll[at], roll[at + 1]]))
}

// The stick that a command names from byte `at` on.
fn named_at(roll: &[u8], at: usize) -> Named
    requires { at + 5 ≤ length roll.now }
    ensures { result ≡ named_at roll.now at }
{
    Named {
        kind: roll[at],
        column: two_bytes(roll, at + 1),
        row: two_bytes(roll, at + 3),
    }
}

// A command of a roll.
#[derive(Clone, Copy)]
pub enum Command {
    Slide(Named, u8),
    Remove(Named),
    Pin(Named),
    End,
}

impl Command {
    // How many bytes it has.
    pub fn width(self) -> usize
        ensures { result ≡ width (written self) }
    {
        match self {
            Command::Slide(_, _) => 7,
            Command::Remove(_) => 6,
            Command::Pin(_) => 6,
            Command::End => 1,
        }
    }
}

// The command that starts at a byte, if there is a whole one.
pub fn command_at(roll: &[u8], at: usize) -> Option<Command>
    requires { at < length roll.now }
    ensures { command_of result ≡ command_at roll.now at }
{
    let left = roll.len() - at;
    match roll[at] {
        b'S' if left >= 7 => Some(Command::Slide(named_at(roll, at + 1), roll[at + 6])),
        b'X' if left >= 6 => Some(Command::Remove(named_at(roll, at + 1))),
        b'P' if left >= 6 => Some(Command::Pin(named_at(roll, at + 1))),
        b'E' => Some(Command::End),
        _ => None,
    }
}

// Question 8 at an E: it is the last byte.
fn ask_last(length: usize, at: usize) -> Answer
    requires { at < length }
    ensures { result ≡ ask_at (at + 1) Malformed (eqb (at + 1) length) }
{
    if at + 1 == length {
        return Ok(());
    }
    Err(Refusal::Malformed.at(at + 1))
}

// Question 8. A command takes a byte or more, so the roll is gone through once.
pub fn ask_roll(roll: &[u8]) -> Answer
    ensures { result ≡ roll_answer roll.now }
{
    let length = roll.len();
    let mut at: usize = 0;
    while at < length {
        let Some(command) = command_at(roll, at) else {
            return Err(Refusal::Malformed.at(at));
        };
        if let Command::End = command {
            return ask_last(length, at);
        }
        at += command.width();
    }
    Err(Refusal::Malformed.at(at))
}
