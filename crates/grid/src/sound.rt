// A layer that passed questions 1 to 4: its sides, and the bitmap that is lent with them. What reads samples takes it whole.
ghost use Rattle.grid.specs.Layer.{layer_of};
ghost use Rattle.grid.specs.Questions.{Sound};

use super::layer::Size;

#[derive(Clone, Copy)]
pub struct Layer<'a> {
    pub size: Size,
    pub bitmap: &'a [u8],
    pub ghost sound: { Sound (layer_of size bitmap.now) },
}
