// The sides of a layer, and one sample of its bitmap.
ghost use Rattle.std.specs.Prelude.{◌≡◌, ◌<◌};
ghost use Rattle.grid.specs.Layer.{layer_of, stride, sample, row_byte};
ghost use Rattle.grid.specs.Questions.{Sized, Whole};

#[derive(Clone, Copy)]
pub struct Size {
    pub width: usize,
    pub height: usize,
}

// Bytes in a row of the bitmap.
pub fn stride_of(size: Size) -> usize
    requires { Sized size }
    ensures { result ≡ stride size }
{
    (size.width + 7) / 8
}

// Byte `at` of row `row`.
pub fn row_byte(size: Size, bitmap: &[u8], at: usize, row: usize) -> u8
    requires whole { Whole (layer_of size bitmap.now) }
    requires at_bound { at < stride size }
    requires row_lt_height { row < size.height }
    ensures { result ≡ row_byte (layer_of size bitmap.now) at row }
{
    let i = row * stride_of(size) + at;
    bitmap[i]
}

// Whether the sample is inside.
pub fn is_inside(size: Size, bitmap: &[u8], column: usize, row: usize) -> bool
    requires whole { Whole (layer_of size bitmap.now) }
    requires column_lt_width { column < size.width }
    requires row_lt_height { row < size.height }
    ensures { result ≡ sample (layer_of size bitmap.now) column row }
{
    let byte = row_byte(size, bitmap, column / 8, row);
    (byte >> (column % 8)) % 2 == 1
}
