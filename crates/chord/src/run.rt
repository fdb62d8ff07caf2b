// The chord from p to q against a number of sticks that follow one another on a contour. It reads the bitmap alone, neither table nor
// sheet.
ghost use Rattle.std.specs.Prelude.{◌≡◌};
ghost use Rattle.grid.specs.Plain.{plain};
ghost use Rattle.chord.specs.Runs.{crosses_run, ChordAt};

use super::cross::crosses_stick;
use super::position::Position;
use grid::{Edge, Layer};
use step::next_stick;

// Whether the chord crosses each of the `count` sticks that follow stick e on its contour.
pub fn crosses_run(layer: Layer, p: Position, q: Position, e: Edge, count: usize) -> bool
    requires { ChordAt (plain layer) p q e }
    ensures { result ≡ crosses_run (plain layer.entry) p q e count }
{
    let mut at = e;
    for _ in 0..count {
        at = next_stick(layer, at);
        if !crosses_stick(p, q, at) {
            return false;
        }
    }
    true
}
