// Twice the signed area of one contour, by one walk over it.
ghost use Rattle.std.specs.Prelude.{◌≡◌, ◌+◌, ◌^◌, ◌≤◌, ◌+ℤ◌, nat_abs};
ghost use Rattle.grid.specs.Plain.{plain};
ghost use Rattle.chord.specs.Runs.{NearEdge};
ghost use Rattle.shoelace.specs.Adds.{HeldStick};
ghost use Rattle.area.specs.Measuring.{NearTrail, past, closing, AreaFound};

use chord::{Position, position_of};
use contour::sticks_of;
use grid::{Edge, Layer};
use shoelace::cross_of;
use table::{Entry, entry_at, is_kept, offset_in};

// The first and the last kept vertex that a walk has passed.
#[derive(Clone, Copy)]
pub struct Trail {
    pub begin: Position,
    pub last: Position,
}

// What the drawn edges add that end at a vertex passed, and the trail, none before the first kept vertex.
#[derive(Clone, Copy)]
pub struct Walked {
    pub area: i64,
    pub trail: Option<Trail>,
}

impl Walked {
    // Past the stick e: if its vertex is kept, the drawn edge that ends there is added.
    fn pass(&mut self, e: Edge, entry: Entry)
        requires edge { NearEdge e }
        requires trail { NearTrail self.old.trail }
        requires small { nat_abs self.old.area ≤ 2 ^ 58 }
        ensures value { self.new ≡ past self.old e entry }
        ensures trail { NearTrail self.new.trail }
        ensures bounded { nat_abs self.new.area ≤ nat_abs self.old.area + 2 ^ 37 }
    {
        if !is_kept(entry) {
            return;
        }
        let here = position_of(e, offset_in(entry));
        match &mut self.trail {
            Some(trail) => {
                self.area += cross_of(trail.last, here);
                trail.last = here;
            }
            None => self.trail = Some(Trail {
                begin: here,
                last: here,
            }),
        }
    }

    // The sum once the edge from the last kept vertex to the first is added too.
    fn closed(self) -> i64
        requires trail { NearTrail self.trail }
        requires small { nat_abs self.area ≤ 2 ^ 58 }
        ensures value { result ≡ self.area +ℤ closing self.trail }
        ensures bounded { nat_abs result ≤ nat_abs self.area + 2 ^ 37 }
    {
        match self.trail {
            Some(trail) => self.area + cross_of(trail.last, trail.begin),
            None => self.area,
        }
    }
}

// The sum over the drawn edges of the contour that starts at `first`. Each is added when the walk passes the kept vertex where it ends; the one from the
// last to the first is added after the walk.
pub fn contour_area(layer: Layer, table: &[u16], first: Edge) -> i64
    requires { HeldStick (plain layer) table.now first }
    ensures { AreaFound (plain layer.entry) table.now first result }
{
    let mut walked = Walked {
        area: 0,
        trail: None,
    };
    for e in sticks_of(layer, first) {
        walked.pass(e, entry_at(layer.size, table, e));
    }
    walked.closed()
}
