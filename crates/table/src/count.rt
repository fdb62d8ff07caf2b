// How many vertices are kept, and so how many edges are drawn.
ghost use Rattle.std.specs.Prelude.{◌≡◌, length};
ghost use Rattle.arith.specs.Ranges.{count};
ghost use Rattle.table.specs.Kept.{kept_entry};

use super::entry::Entry;
use super::vertex::is_kept;

// How many entries have a kept vertex.
pub fn count_kept(table: &[u16]) -> usize
    ensures { result ≡ count (kept_entry table.now) (length table.now) }
{
    let mut kept: usize = 0;
    for n in table {
        if is_kept(Entry::from(*n)) {
            kept += 1;
        }
    }
    kept
}
