// The public call Counts.
ghost use Rattle.std.specs.Prelude.{◌≡◌, length};
ghost use Rattle.grid.specs.Layer.{layer_of, size_of};
ghost use Rattle.trace.specs.Counts.{figures_of, counts_of};

use grid::{Layer, Refused, Size};

// The inside samples, the sticks and the contours of a layer.
#[derive(Clone, Copy)]
pub struct Counted {
    pub inside: usize,
    pub sticks: usize,
    pub contours: usize,
}

// Counts a layer. Of the table it looks at the length alone.
pub fn counts(w: u16, h: u16, bitmap: &[u8], table: &[u16]) -> Result<Counted, Refused>
    ensures { figures_of result ≡ counts_of (layer_of (size_of w h) bitmap.now) (length table.now) }
{
    let size = Size {
        width: w as usize,
        height: h as usize,
    };
    table::ask_lengths(size, bitmap, table.len())?;
    let layer = Layer { size, bitmap };
    Ok(Counted {
        inside: mask::inside_count(layer),
        sticks: mask::stick_count(layer),
        contours: contour::count_contours(layer),
    })
}
