// The sides of a cell and the links between them. A cell is a square of four samples and has the column and row of its lower left one.
ghost use Rattle.std.specs.Prelude.{◌≡◌, ◌<◌};
ghost use Rattle.step.specs.Cells.{side_index, side_at, linked_in, edge_of};

use grid::Edge;

#[derive(Clone, Copy)]
pub enum Side {
    South,
    East,
    North,
    West,
}

#[derive(Clone, Copy)]
pub struct CellSide {
    pub column: usize,
    pub row: usize,
    pub side: Side,
}

// For each of the sixteen patterns of inside corners the sides linked to its sides, two bits each: west, north, east and, lowest, south.
// A side that is no stick has its own number.
const LINKS: [u8; 16] = [
    0b11_10_01_00, // none inside
    0b00_10_01_11, // sw
    0b11_10_00_01, // se
    0b01_10_11_00, // sw se
    0b10_11_01_00, // nw
    0b11_00_01_10, // sw nw
    0b10_11_00_01, // se nw
    0b11_01_10_00, // sw se nw
    0b11_01_10_00, // ne
    0b00_01_10_11, // sw ne
    0b11_00_01_10, // se ne
    0b10_11_01_00, // sw se ne
    0b01_10_11_00, // nw ne
    0b11_10_00_01, // sw nw ne
    0b00_10_01_11, // se nw ne
    0b11_10_01_00, // all inside
];

// The number of a side in the table.
impl From<Side> for u8 {
    ghost from_gives = { λ side n. n ≡ side_index side };

    fn from(side: Side) -> u8 {
        match side {
            Side::South => 0,
            Side::East => 1,
            Side::North => 2,
            Side::West => 3,
        }
    }
}

impl From<u8> for Side {
    ghost from_gives = { λ n side. side ≡ side_at n };

    fn from(n: u8) -> Side {
        match n {
            0 => Side::South,
            1 => Side::East,
            2 => Side::North,
            _ => Side::West,
        }
    }
}

// The side that the table links to this one in a pattern.
pub fn linked_in(pattern: usize, side: Side) -> Side
    requires { pattern < 16 }
    ensures { result ≡ linked_in pattern side }
{
    Side::from((LINKS[pattern] >> (2 * u8::from(side))) % 4)
}

// The grid edge that a side of a cell is.
pub fn edge_of(p: CellSide) -> Edge
    requires column_bound { p.column < 1024 }
    requires row_bound { p.row < 1024 }
    ensures { result ≡ edge_of p }
{
    match p.side {
        Side::South => Edge {
            vertical: false,
            column: p.column,
            row: p.row,
        },
        Side::East => Edge {
            vertical: true,
            column: p.column + 1,
            row: p.row,
        },
        Side::North => Edge {
            vertical: false,
            column: p.column,
            row: p.row + 1,
        },
        Side::West => Edge {
            vertical: true,
            column: p.column,
            row: p.row,
        },
    }
}
