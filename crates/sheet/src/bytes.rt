// Bytes of a sheet, stored from a place on.
ghost use Rattle.std.specs.Prelude.{◌≡◌, ◌+◌, ◌≤◌, length};
ghost use Rattle.std.proofs.lemmas.List.Edits.{sets};
ghost use Rattle.sheet.specs.Commands.{vertex_command};
ghost use Rattle.sheet.specs.Stored.{Stored};

use super::command::VERTEX_BYTES;
use table::Entry;

pub fn put_bytes(sheet: &mut [u8], at: usize, bytes: &[u8])
    requires { at + length bytes.now ≤ length sheet.old }
    ensures { sheet.new ≡ sets sheet.old at bytes.now }
{
    sheet[at..at + bytes.len()].copy_from_slice(bytes);
}

// The command of a vertex, which an entry without one does not have. Gives the place after it.
pub fn put_vertex(sheet: &mut [u8], at: usize, entry: Entry) -> usize
    requires { at + length (vertex_command entry) ≤ length sheet.old }
    ensures { Stored sheet.old at (vertex_command entry) sheet.new result }
{
    let (letter, offset) = match entry {
        Entry::Kept(offset) => (b'K', offset),
        Entry::Removed(offset) => (b'R', offset),
        Entry::Pinned(offset) => (b'N', offset),
        Entry::Nothing | Entry::Wrong => return at,
    };
    put_bytes(sheet, at, &[letter, offset]);
    at + VERTEX_BYTES
}
