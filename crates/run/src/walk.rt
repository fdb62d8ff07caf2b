// Walks along a contour: how long it is, the stick where a run ends, and the removal of what lies between.
ghost use Rattle.std.specs.Prelude.{◌≡◌, true, length};
ghost use mathlib.Core.List.{foldl};
ghost use Rattle.grid.specs.Plain.{plain};
ghost use Rattle.grid.specs.Edges.{is_stick};
ghost use Rattle.contour.specs.Contours.{contour_of};
ghost use Rattle.table.specs.Stores.{without};
ghost use Rattle.table.specs.Lent.{LentAt};
ghost use Rattle.run.specs.Runs.{stick_after, between};

use contour::sticks_of;
use grid::{Edge, Layer};
use step::next_stick;

// How many sticks the contour that starts at `first` has.
pub fn contour_length(layer: Layer, first: Edge) -> usize
    requires { is_stick (plain layer) first ≡ true }
    ensures { result ≡ length (contour_of (plain layer.entry) first) }
{
    sticks_of(layer, first).count()
}

// The stick n steps on from e.
pub fn stick_after(layer: Layer, e: Edge, n: usize) -> Edge
    requires { is_stick (plain layer) e ≡ true }
    ensures { result ≡ stick_after (plain layer.entry) n e }
{
    let mut at = e;
    for _ in 0..n {
        at = next_stick(layer, at);
    }
    at
}

// Removes the inner vertices of a run of n edges from stick e.
pub fn remove_inner(layer: Layer, table: &mut [u16], e: Edge, n: usize)
    requires { LentAt (plain layer) table.old e }
    ensures { table.new ≡ foldl (without (plain layer.entry)) table.old (between (plain layer.entry) e n) }
{
    let mut at = e;
    for _ in 1..n {
        at = next_stick(layer, at);
        table::remove(layer.size, table, at);
    }
}
