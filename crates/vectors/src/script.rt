// The numbers and bytes of a script, from standard input, and what can be wrong with one. A number has its lowest byte first.
ghost use Rattle.std.specs.Prelude.{◌≤◌, IfOk, length};

use std::io;
use std::io::{ErrorKind, Read};

// Why the commands end before the end of a script: reading or printing failed, or the script is wrong.
#[derive(Drop)]
pub enum Failure {
    Io(io::Error),
    Wrong,
}

impl From<io::Error> for Failure {
    fn from(error: io::Error) -> Failure {
        Failure::Io(error)
    }
}

// Fills a place. A script that is cut short is wrong.
fn fill(input: &mut impl Read, place: &mut [u8]) -> Result<(), Failure> {
    match input.read_exact(place) {
        Ok(()) => Ok(()),
        Err(e) if e.kind() == ErrorKind::UnexpectedEof => Err(Failure::Wrong),
        Err(e) => Err(Failure::Io(e)),
    }
}

pub fn take_u8(input: &mut impl Read) -> Result<u8, Failure> {
    let mut bytes = [0; 1];
    fill(input, &mut bytes)?;
    Ok(bytes[0])
}

pub fn take_u16(input: &mut impl Read) -> Result<u16, Failure> {
    let mut bytes = [0; 2];
    fill(input, &mut bytes)?;
    Ok(u16::from_le_bytes(bytes))
}

pub fn take_u32(input: &mut impl Read) -> Result<u32, Failure> {
    let mut bytes = [0; 4];
    fill(input, &mut bytes)?;
    Ok(u32::from_le_bytes(bytes))
}

// Takes a count and so many bytes to the start of a place, which has to have room for them, and answers the count.
pub fn take_bytes(input: &mut impl Read, place: &mut [u8]) -> Result<usize, Failure>
    ensures { IfOk result (λ n. n ≤ length place.new) }
{
    let n = take_u32(input)? as usize;
    if n > place.len() {
        return Err(Failure::Wrong);
    }
    fill(input, &mut place[..n])?;
    Ok(n)
}
