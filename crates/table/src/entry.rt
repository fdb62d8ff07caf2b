// An entry of the hold table taken apart, and its number.
ghost use Rattle.std.specs.Prelude.{◌≡◌, true};
ghost use Rattle.table.specs.Entries.{entry_of, encoded, suits, wrong};
ghost use Rattle.table.specs.Vertices.{is_pinned, offset_in};

// What an entry says of its edge: no stick, a vertex at an offset, kept, removed, or kept and pinned, or a number that no entry may have. `Kept`
// is not pinned; `is_kept` says yes of both.
#[derive(Clone, Copy)]
pub enum Entry {
    Nothing,
    Kept(u8),
    Removed(u8),
    Pinned(u8),
    Wrong,
}

impl From<u16> for Entry {
    ghost from_gives = { λ n entry. entry ≡ entry_of n };

    fn from(n: u16) -> Entry {
        match n {
            0 => Entry::Nothing,
            1..=255 => Entry::Kept((n % 256) as u8),
            257..=511 => Entry::Removed((n % 256) as u8),
            513..=767 => Entry::Pinned((n % 256) as u8),
            _ => Entry::Wrong,
        }
    }
}

// The number of an entry.
impl From<Entry> for u16 {
    ghost from_gives = { λ entry n. n ≡ encoded entry };

    fn from(entry: Entry) -> u16 {
        match entry {
            Entry::Nothing => 0,
            Entry::Kept(offset) => u16::from(offset),
            Entry::Removed(offset) => 256 + u16::from(offset),
            Entry::Pinned(offset) => 512 + u16::from(offset),
            Entry::Wrong => 256,
        }
    }
}

// The offset in an entry that carries a vertex: the low byte of its number.
pub fn offset_of(n: u16) -> u8
    requires { suits true (entry_of n) ≡ true }
    ensures { result ≡ offset_in (entry_of n) }
{
    (n % 256) as u8
}

// Whether the vertex in such an entry is pinned.
pub fn has_pin(n: u16) -> bool
    requires { suits true (entry_of n) ≡ true }
    ensures { result ≡ is_pinned (entry_of n) }
{
    512 < n
}

// Whether an entry is wrong for its edge.
pub fn is_wrong(stick: bool, n: u16) -> bool
    ensures { result ≡ wrong stick n }
{
    match Entry::from(n) {
        Entry::Nothing => stick,
        Entry::Kept(_) | Entry::Removed(_) | Entry::Pinned(_) => !stick,
        Entry::Wrong => true,
    }
}
