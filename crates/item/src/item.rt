// Points in samples, items, and how an item is written out.
ghost use Rattle.std.specs.Prelude.{◌≡◌, [], ◌∷◌, ◌+◌, ◌≤◌, length};
ghost use Rattle.std.proofs.lemmas.List.Edits.{sets};
ghost use Rattle.chord.specs.Points.{position};
ghost use Rattle.chord.specs.Runs.{NearEdge};
ghost use Rattle.item.specs.Items.{in_samples, point_in_samples, item_to, byte_of};
ghost use Rattle.item.specs.Writing.{buffers_of, write_item, Room};

use grid::Edge;

// Where a vertex is, in samples.
#[derive(Clone, Copy)]
pub struct Point {
    pub x: f64,
    pub y: f64,
}

#[derive(Clone, Copy)]
pub enum Item {
    Move(f64, f64),
    Line(f64, f64),
    Close,
}

// How many items and floats have been written.
#[derive(Clone, Copy)]
pub struct Written {
    pub items: usize,
    pub floats: usize,
}

// A whole number of 1/256ths in samples. Both the number and the quotient are floats, so nothing is rounded.
fn in_samples(n: usize) -> f64
    requires { n ≤ 262144 }
    ensures { result ≡ in_samples n }
{
    n as f64 / 256.0
}

// The vertex at an offset of a stick.
pub fn point_of(e: Edge, offset: u8) -> Point
    requires { NearEdge e }
    ensures { result ≡ point_in_samples (position e offset) }
{
    let p = chord::position_of(e, offset);
    Point {
        x: in_samples(p.x),
        y: in_samples(p.y),
    }
}

// The item that leads to a point: a move where one is due, else a line.
pub fn item_to(due: bool, p: Point) -> Item
    ensures { result ≡ item_to due p }
{
    if due {
        Item::Move(p.x, p.y)
    } else {
        Item::Line(p.x, p.y)
    }
}

// The byte that stands for an item.
fn byte_of(item: Item) -> u8
    ensures { result ≡ byte_of item }
{
    match item {
        Item::Move(..) => 0x4D,
        Item::Line(..) => 0x6C,
        Item::Close => 0x5A,
    }
}

// Writes an item out where the outputs are written to, and moves that on: one byte, and the coordinates of its point if it has one.
pub fn put_item(items: &mut [u8], points: &mut [f64], at: &mut Written, item: Item)
    requires { Room (buffers_of items.old points.old at.old) (item ∷ []) }
    ensures { buffers_of items.new points.new at.new ≡ write_item (buffers_of items.old points.old at.old) item }
{
    items[at.items] = byte_of(item);
    at.items += 1;
    if let Item::Move(x, y) | Item::Line(x, y) = item {
        points[at.floats] = x;
        points[at.floats + 1] = y;
        at.floats += 2;
    }
}
