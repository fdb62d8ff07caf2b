// The commands of a sheet: whether one stands at a place, whole.
ghost use Rattle.std.specs.Prelude.{◌≡◌, ◌≤◌, length};
ghost use Rattle.sheet.specs.Commands.{size_command, contour_command};
ghost use Rattle.formed.specs.Expected.{stands_at, vertex_letter, vertex_at};

use grid::{Edge, Size};
use sheet::{contour_command, size_command};

// Whether the sheet begins with the command that gives the size.
pub fn has_size(sheet: &[u8], size: Size) -> bool
    ensures { result ≡ stands_at sheet.now 0 (size_command size) }
{
    sheet.starts_with(&size_command(size))
}

// Whether the command that begins the contour of f stands at i.
pub fn has_contour(sheet: &[u8], i: usize, f: Edge) -> bool
    requires { i ≤ length sheet.now }
    ensures { result ≡ stands_at sheet.now i (contour_command f) }
{
    sheet[i..].starts_with(&contour_command(f))
}

// Whether a byte is the letter of a vertex command.
fn is_vertex_letter(b: u8) -> bool
    ensures { result ≡ vertex_letter b }
{
    matches!(b, b'K' | b'R' | b'N')
}

// Whether a vertex command stands at i: its letter, and an offset that is not 0.
pub fn has_vertex(sheet: &[u8], i: usize) -> bool
    requires { i ≤ length sheet.now }
    ensures { result ≡ vertex_at sheet.now i }
{
    match &sheet[i..] {
        [letter, offset, ..] => is_vertex_letter(*letter) && 0 < *offset,
        _ => false,
    }
}
