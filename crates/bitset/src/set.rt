// A set of edge numbers with one bit for each, in words of 64. Its size is that of a layer with 1,024 columns and rows: as many bits as
// there are horizontal edges.
ghost use Rattle.std.specs.Prelude.{◌≡◌, false, cond, ℕ, ◌≤◌, ◌<◌, ltb};
ghost use Rattle.arith.specs.Ranges.{count, least};
ghost use Rattle.grid.specs.Layer.{bit};
ghost use Rattle.bitset.specs.Sets.{set_bits, has, next_of, member_count, with_number, without_number};

// How many words a set has: a bit for each horizontal edge of a layer of 1,024 × 1,024.
pub const WORDS: usize = 16368;

// A set of horizontal edges, by their numbers.
pub type EdgeSet = [u64; WORDS];

pub fn contains(set: &EdgeSet, n: usize) -> bool
    requires n_lt_set_bits { n < set_bits }
    ensures { result ≡ has set.now n }
{
    let word = n / 64;
    (set[word] >> (n % 64)) % 2 == 1
}

pub fn insert(set: &mut EdgeSet, n: usize)
    requires n_lt_set_bits { n < set_bits }
    ensures { set.new ≡ with_number set.old n }
{
    let word = n / 64;
    set[word] = set[word] | (1 << (n % 64));
}

// Takes a number out that is in the set.
pub fn remove(set: &mut EdgeSet, n: usize)
    requires n_lt_set_bits { n < set_bits }
    ensures { set.new ≡ without_number set.old n }
{
    let word = n / 64;
    set[word] = set[word] ^ (1 << (n % 64));
}

// The lowest bit of a word that is set.
pub fn lowest_bit(x: u64) -> usize
    requires { x ≡ 0 → ⊥ }
    ensures value { result ≡ least (bit x) 64 }
    ensures upper_bound { result < 64 }
{
    u64::trailing_zeros(x) as usize
}

// How many bits of a word are set.
fn ones_in(x: u64) -> usize
    ensures { result ≡ count (bit x) 64 }
{
    u64::count_ones(x) as usize
}

// A number, if it is below `end`.
fn below(n: usize, end: usize) -> Option<usize>
    ensures { result ≡ cond (ltb n end) (Some n) None }
{
    if n < end { Some(n) } else { None }
}

// The least number of the set from `from` on and below `end`, if there is one. The scan stops at the word that holds `end`.
pub fn next_first(set: &EdgeSet, from: usize, end: usize) -> Option<usize>
    requires from_le_end { from ≤ end }
    requires end_le_set_bits { end ≤ set_bits }
    ensures { result ≡ next_of set.now from end }
{
    if from == end {
        return None;
    }
    let first = from / 64;
    let left = set[first] >> (from % 64);
    if left != 0 {
        return below(from + lowest_bit(left), end);
    }
    for word in first + 1..end.div_ceil(64) {
        let x = set[word];
        if x != 0 {
            return below(64 * word + lowest_bit(x), end);
        }
    }
    None
}

// How many numbers the set has, of which none is `end` or above. The scan stops at the word that holds `end`.
pub fn member_count(set: &EdgeSet, end: usize) -> usize
    requires end_le_set_bits { end ≤ set_bits }
    requires none_above { (n : ℕ) → end ≤ n → has set.now n ≡ false }
    ensures { result ≡ member_count set.now }
{
    let mut sum: usize = 0;
    for word in 0..end.div_ceil(64) {
        sum += ones_in(set[word]);
    }
    sum
}
