// The command that opens the input, L and both sides, and the question on the sides.
ghost use Rattle.std.specs.Prelude.{◌≡◌, ◌+◌, ◌*◌, ◌≤◌, length};
ghost use Rattle.grid.specs.Layer.{size_of};
ghost use Rattle.slicing.specs.Slice.{whole_command, number_at, side_fits, sides_fit};

// "L (hex 4C), W, H (16 bits, low byte first)"
const SIZE_LETTER: u8 = 0x4C;

pub const WIDTH_AT: usize = 1;

pub const HEIGHT_AT: usize = 3;

pub const COMMAND_LENGTH: usize = 5;

// "Its sides are at most 64"
const SIDE_LIMIT: u16 = 64;

// Whether the input begins with a whole L command.
pub fn has_command(input: &[u8]) -> bool
    ensures { result ≡ whole_command input.now }
{
    COMMAND_LENGTH <= input.len() && input[0] == SIZE_LETTER
}

// The number of 16 bits that stands at a place, low byte first.
pub fn number_at(input: &[u8], i: usize) -> u16
    requires { i + 2 ≤ length input.now }
    ensures { result ≡ number_at input.now i }
{
    u16::from_le_bytes([input[i], input[i + 1]])
}

// A side of a layer is 2 to 64 samples here.
fn side_fits(n: u16) -> bool
    ensures { result ≡ side_fits n }
{
    2 <= n && n <= SIDE_LIMIT
}

pub fn sides_fit(w: u16, h: u16) -> bool
    ensures { result ≡ sides_fit (size_of w h) }
{
    side_fits(w) && side_fits(h)
}
