// The layer view: a lent bitmap with its sides, made by one call and read by another.
ghost use Rattle.std.specs.Prelude.{◌≡◌};
ghost use Rattle.grid.specs.Layer.{layer_of, size_of};
ghost use Rattle.view.specs.View.{shown, view_of, sample_or_outside, outcome, sample_of};

use grid::{Refused, Size};

// A lent bitmap with its sides, or an empty part with sides 0 and the refusal.
#[derive(Clone, Copy)]
pub struct View<'a> {
    pub bitmap: &'a [u8],
    pub width: u16,
    pub height: u16,
    pub refused: Option<Refused>,
}

// What reading a sample comes to in numbers: the number and place of the refusal, both 0 if there is none, and whether the sample is inside.
#[derive(Clone, Copy)]
pub struct Sampled {
    pub number: u32,
    pub place: usize,
    pub inside: bool,
}

impl From<Result<bool, Refused>> for Sampled {
    ghost from_gives = { λ answer sampled. sampled ≡ outcome answer };

    fn from(answer: Result<bool, Refused>) -> Sampled {
        match answer {
            Ok(inside) => Sampled {
                number: 0,
                place: 0,
                inside,
            },
            Err(no) => Sampled {
                number: u32::from(no.question),
                place: no.place,
                inside: false,
            },
        }
    }
}

// Puts questions 1 to 4 and makes the record.
pub fn make_view<'a>(w: u16, h: u16, bitmap: &'a [u8]) -> View<'a>
    ensures { shown result ≡ view_of (layer_of (size_of w h) bitmap.now) }
{
    let size = Size {
        width: w as usize,
        height: h as usize,
    };
    match grid::ask_layer(size, bitmap) {
        Ok(()) => View {
            bitmap,
            width: w,
            height: h,
            refused: None,
        },
        Err(refused) => View {
            bitmap: &[],
            width: 0,
            height: 0,
            refused: Some(refused),
        },
    }
}

// Whether a sample is inside. Off the grid it is not. No view that was made asks for a byte past the end of its bitmap.
pub fn sample<'a>(v: View<'a>, column: u16, row: u16) -> bool
    ensures { result ≡ sample_or_outside (shown v.entry).layer column row }
{
    if column >= v.width || row >= v.height {
        return false;
    }
    let stride = usize::from(v.width).div_ceil(8);
    let at = usize::from(row) * stride + usize::from(column) / 8;
    let byte = v.bitmap.get(at).copied().unwrap_or(0);
    (byte >> (column % 8)) % 2 == 1
}

// One sample by a view that is made for it.
pub fn sample_at(w: u16, h: u16, bitmap: &[u8], column: u16, row: u16) -> Result<bool, Refused>
    ensures { outcome result ≡ sample_of (layer_of (size_of w h) bitmap.now) column row }
{
    let view = make_view(w, h, bitmap);
    match view.refused {
        None => Ok(sample(view, column, row)),
        Some(refused) => Err(refused),
    }
}
