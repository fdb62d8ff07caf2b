// What the table says of an edge: its entry, whether that is a kept, a removed or a pinned vertex, and the vertex's offset; and what the
// calls store: an entry, and a vertex removed or pinned.
ghost use Rattle.std.specs.Prelude.{◌≡◌, get_or};
ghost use Rattle.grid.specs.Edges.{number};
ghost use Rattle.table.specs.Entries.{entry_of};
ghost use Rattle.table.specs.Vertices.{is_kept, is_removed, is_pinned, offset_in};
ghost use Rattle.table.specs.Stores.{store};
ghost use Rattle.table.specs.Lent.{HasEntry};
ghost use Rattle.table.specs.declared.entry.Entry.TheVariants.{Removed, Pinned};

use super::entry::Entry;
use grid::{Edge, Size, number_of};

pub fn entry_at(size: Size, table: &[u16], e: Edge) -> Entry
    requires { HasEntry size table.now e }
    ensures { result ≡ entry_of (get_or table.now (number size e) 0) }
{
    let n = number_of(size, e);
    Entry::from(table[n])
}

pub fn is_kept(entry: Entry) -> bool
    ensures { result ≡ is_kept entry }
{
    matches!(entry, Entry::Kept(_) | Entry::Pinned(_))
}

pub fn is_removed(entry: Entry) -> bool
    ensures { result ≡ is_removed entry }
{
    matches!(entry, Entry::Removed(_))
}

pub fn is_pinned(entry: Entry) -> bool
    ensures { result ≡ is_pinned entry }
{
    matches!(entry, Entry::Pinned(_))
}

pub fn offset_in(entry: Entry) -> u8
    ensures { result ≡ offset_in entry }
{
    match entry {
        Entry::Kept(offset) | Entry::Removed(offset) | Entry::Pinned(offset) => offset,
        Entry::Nothing | Entry::Wrong => 0,
    }
}

// Stores an entry.
pub fn store(size: Size, table: &mut [u16], e: Edge, entry: Entry)
    requires { HasEntry size table.old e }
    ensures { table.new ≡ store size table.old e entry }
{
    let n = number_of(size, e);
    table[n] = u16::from(entry);
}

// Removes a vertex, with the offset it has.
pub fn remove(size: Size, table: &mut [u16], e: Edge)
    requires { HasEntry size table.old e }
    ensures { table.new ≡ store size table.old e (Removed (offset_in (entry_of (get_or table.old (number size e) 0)))) }
{
    let offset = offset_in(entry_at(size, table, e));
    store(size, table, e, Entry::Removed(offset));
}

// Pins a vertex, with the offset it has.
pub fn pin(size: Size, table: &mut [u16], e: Edge)
    requires { HasEntry size table.old e }
    ensures { table.new ≡ store size table.old e (Pinned (offset_in (entry_of (get_or table.old (number size e) 0)))) }
{
    let offset = offset_in(entry_at(size, table, e));
    store(size, table, e, Entry::Pinned(offset));
}
