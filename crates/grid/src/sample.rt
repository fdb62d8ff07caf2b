// The samples of a layer that passed questions 1 to 4.
ghost use Rattle.std.specs.Prelude.{◌≡◌, ◌<◌};
ghost use Rattle.grid.specs.Layer.{stride, sample, row_byte};
ghost use Rattle.grid.specs.Plain.{plain};

use super::layer;
use super::sound::Layer;

impl<'a> Layer<'a> {
    // Byte `at` of row `row`.
    pub fn row_byte(self, at: usize, row: usize) -> u8
        requires at_bound { at < stride self.size }
        requires row_lt_height { row < self.size.height }
        ensures { result ≡ row_byte (plain self.entry) at row }
    {
        layer::row_byte(self.size, self.bitmap, at, row)
    }

    // Whether the sample is inside.
    pub fn is_inside(self, column: usize, row: usize) -> bool
        requires column_lt_width { column < self.size.width }
        requires row_lt_height { row < self.size.height }
        ensures { result ≡ sample (plain self.entry) column row }
    {
        layer::is_inside(self.size, self.bitmap, column, row)
    }
}
