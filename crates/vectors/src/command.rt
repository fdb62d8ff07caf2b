// The commands of a script, each a letter and its fields: B sets the bitmap, M the table, P one entry of it, and the others call the
// library. Bytes that a command has besides stand after its fields, with their count before them. E ends the script.
use super::script::{Failure, take_u8, take_u16, take_u32};
use std::io::Read;

#[derive(Clone, Copy)]
pub enum Command {
    Bitmap { w: u16, h: u16 },
    Table { entries: usize, seed: u16 },
    Entry { at: usize, entry: u16 },
    Call(Call),
}

// A call of the library. What it is lent besides the bitmap and the table has a length here, or follows in the script.
#[derive(Clone, Copy)]
pub enum Call {
    Trace,
    Counts,
    Held,
    Smooth { limit: u16 },
    Simplify { t: u8 },
    Roll { t: u8 },
    WriteSheet { length: usize },
    ReadSheet,
    Plan { items: usize, floats: usize },
    Areas { areas: usize, sums: usize },
}

impl Command {
    // The next command of a script, none at its end.
    pub fn take(input: &mut impl Read) -> Result<Option<Command>, Failure> {
        let command = match take_u8(input)? {
            b'B' => Command::Bitmap {
                w: take_u16(input)?,
                h: take_u16(input)?,
            },
            b'M' => Command::Table {
                entries: take_length(input)?,
                seed: take_u16(input)?,
            },
            b'P' => Command::Entry {
                at: take_length(input)?,
                entry: take_u16(input)?,
            },
            b'E' => return Ok(None),
            letter => Command::Call(Call::take(input, letter)?),
        };
        Ok(Some(command))
    }
}

impl Call {
    fn take(input: &mut impl Read, letter: u8) -> Result<Call, Failure> {
        let call = match letter {
            b'T' => Call::Trace,
            b'N' => Call::Counts,
            b'H' => Call::Held,
            b'S' => Call::Smooth {
                limit: take_u16(input)?,
            },
            b'Y' => Call::Simplify { t: take_u8(input)? },
            b'R' => Call::Roll { t: take_u8(input)? },
            b'W' => Call::WriteSheet {
                length: take_length(input)?,
            },
            b'D' => Call::ReadSheet,
            b'L' => Call::Plan {
                items: take_length(input)?,
                floats: take_length(input)?,
            },
            b'A' => Call::Areas {
                areas: take_length(input)?,
                sums: take_length(input)?,
            },
            _ => return Err(Failure::Wrong),
        };
        Ok(call)
    }

    // The letter that a call's line begins with, that of its command.
    pub fn letter(self) -> u8 {
        match self {
            Call::Trace => b'T',
            Call::Counts => b'N',
            Call::Held => b'H',
            Call::Smooth { .. } => b'S',
            Call::Simplify { .. } => b'Y',
            Call::Roll { .. } => b'R',
            Call::WriteSheet { .. } => b'W',
            Call::ReadSheet => b'D',
            Call::Plan { .. } => b'L',
            Call::Areas { .. } => b'A',
        }
    }

    // How many figures its line has.
    pub fn figures(self) -> usize {
        match self {
            Call::Trace | Call::Held | Call::ReadSheet => 0,
            Call::Roll { .. } | Call::WriteSheet { .. } => 1,
            Call::Simplify { .. } | Call::Plan { .. } => 2,
            Call::Counts | Call::Smooth { .. } | Call::Areas { .. } => 3,
        }
    }
}

fn take_length(input: &mut impl Read) -> Result<usize, Failure> {
    Ok(take_u32(input)? as usize)
}
