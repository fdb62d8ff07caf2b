// The commands of a sheet, for writing and reading: the bytes of those that open a sheet and a contour, and how many bytes each has.
ghost use Rattle.std.specs.Prelude.{◌≡◌};
ghost use Rattle.sheet.specs.Commands.{size_command, contour_command};

use grid::{Edge, Size};

// L, W and H.
pub const SIZE_BYTES: usize = 5;
// C and a stick.
pub const CONTOUR_BYTES: usize = 6;
// K, R or N, and an offset.
pub const VERTEX_BYTES: usize = 2;

// The command that opens a sheet.
pub fn size_command(size: Size) -> [u8; SIZE_BYTES]
    ensures { result ≡ size_command size }
{
    let [w_low, w_high, ..] = size.width.to_le_bytes();
    let [h_low, h_high, ..] = size.height.to_le_bytes();
    [b'L', w_low, w_high, h_low, h_high]
}

// The command that opens a contour.
pub fn contour_command(first: Edge) -> [u8; CONTOUR_BYTES]
    ensures { result ≡ contour_command first }
{
    let kind = u8::from(first.vertical);
    let [c_low, c_high, ..] = first.column.to_le_bytes();
    let [r_low, r_high, ..] = first.row.to_le_bytes();
    [b'C', kind, c_low, c_high, r_low, r_high]
}
