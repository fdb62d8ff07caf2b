// What a script has set, and the commands that set it. The bitmap and the table stand in slices of their own: those in use are their first
// `bytes` and their first `entries` elements.
use super::call;
use super::command::Command;
use super::script::{Failure, take_bytes};
use std::io::Read;

#[derive(Clone, Copy, Default)]
pub struct State {
    pub w: u16,
    pub h: u16,
    pub bytes: usize,
    pub entries: usize,
}

impl State {
    // Carries out a command.
    pub fn carry_out(
        &mut self,
        input: &mut impl Read,
        out: &impl Print,
        bitmap: &mut [u8],
        table: &mut [u16],
        command: Command,
    ) -> Result<(), Failure> {
        match command {
            Command::Bitmap { w, h } => {
                self.bytes = take_bytes(input, bitmap)?;
                self.w = w;
                self.h = h;
                Ok(())
            }
            Command::Table { entries, seed } => self.set_table(table, entries, seed),
            Command::Entry { at, entry } => {
                self.set_entry(table, at, entry);
                Ok(())
            }
            Command::Call(made) => call::answer(input, out, bitmap, table, *self, made),
        }
    }

    fn set_table(&mut self, table: &mut [u16], entries: usize, seed: u16) -> Result<(), Failure> {
        if entries > table.len() {
            return Err(Failure::Wrong);
        }
        fill(&mut table[..entries], seed);
        self.entries = entries;
        Ok(())
    }

    // An entry past the last is left alone.
    fn set_entry(&self, table: &mut [u16], at: usize, entry: u16) {
        if at < self.entries.min(table.len()) {
            table[at] = entry;
        }
    }
}

// The entries run on from the seed in steps of 40503, modulo 65536.
fn fill(part: &mut [u16], seed: u16) {
    let mut entry = seed;
    for place in part.iter_mut() {
        *place = entry;
        entry = entry.wrapping_add(40503);
    }
}
