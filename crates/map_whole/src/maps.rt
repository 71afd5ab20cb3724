// Dirty maps: 16 rows of 512 bytes. Every operation takes a map of any length and any number, and leaves what the definition of specs/Map.antt gives. Loops over
// a whole map have no branch but their bound.
ghost use Rattle.std.specs.Prelude.{◌≡◌, ◌-◌, ◌<◌, ◌≤◌, length};
ghost use Rattle.rules_base.specs.Map.{zero_from, zero_row, zeroed, rows_kept, copied, sound, row_of};
ghost use Rattle.rules_base.specs.Scan.{or_to, row_spare};

use map_numbers::refusals::MAP_BYTES;

// Zeroes the bytes from a up to e, as far as the map goes.
fn zero_from(map: &mut [u8], a: usize, e: usize)
    requires { a ≤ e }
    ensures { map.new ≡ zero_from a e map.old }
{
    let n = map.len();
    map[a.min(n)..e.min(n)].fill(0);
}

// Zeroes member m's row.
#[tactic(auto, unfolding(rules_base::specs::Map::zero_row))]
pub fn zero_row(map: &mut [u8], m: u64)
    ensures { map.new ≡ zero_row m map.old }
{
    if 15 < m {
        return;
    }
    let a = 512 * (m as usize);
    zero_from(map, a, a + 512);
}

// Zeroes every row outside the set. A loop: a walk over the ids that takes a closure on the lent map reads no plainer.
#[tactic(auto, unfolding(rules_base::specs::Map::rows_kept, rules_base::specs::Chunk::each))]
pub fn keep_rows(map: &mut [u8], set: u64)
    ensures { map.new ≡ rows_kept set map.old }
{
    for m in 0..16 {
        if !map_numbers::sets::has(set, m) {
            zero_row(map, m);
        }
    }
}

// Zeroes the map.
#[tactic(auto, unfolding(rules_base::specs::Map::zeroed))]
pub fn zero(map: &mut [u8])
    ensures { map.new ≡ zeroed map.old }
{
    map.fill(0);
}

// Copies the second map over the first. A `for` over the places and no `copy_from_slice`: that one becomes a call of memmove, and the archives for C are to need nothing but memcpy and memset.
pub fn copy(map: &mut [u8], other: &[u8])
    ensures { map.new ≡ copied map.old other.now }
{
    let n = map.len().min(other.len());
    for i in 0..n {
        map[i] = other[i];
    }
}

// The OR of the bytes from a up to e.
#[tactic(auto, unfolding(rules_base::specs::Scan::or_to))]
fn or_of(map: &[u8], a: usize, e: usize) -> u8
    requires { (a ≤ e) × (e ≤ length map.now) }
    ensures { result ≡ or_to map.now a (e - a) }
{
    let mut got: u8 = 0;
    for x in &map[a..e] {
        got |= *x;
    }
    got
}

// What member m's row holds past the chunk count.
#[tactic(auto, unfolding(rules_base::specs::Scan::row_spare))]
fn row_spare(map: &[u8], n: u64, m: u64) -> u8
    requires { (length map.now ≡ 8192) × (m < 16) }
    ensures { result ≡ row_spare map.now n m }
{
    let full = n / 8;
    if 512 <= full {
        return 0;
    }
    let row = 512 * (m as usize);
    let at = row + (full as usize);
    let high = map_chunk::get(map, at) >> (n % 8);
    high | or_of(map, at + 1, row + 512)
}

// Whether the map has exactly 8,192 bytes and no bit past the chunk count n.
#[tactic(auto, unfolding(rules_base::specs::Scan::rows_spare))]
pub fn is_sound(map: &[u8], n: u64) -> bool
    ensures { result ≡ sound n map.now }
{
    if map.len() != MAP_BYTES {
        return false;
    }
    let mut got: u8 = 0;
    for m in 0..16 {
        got |= row_spare(map, n, m);
    }
    got == 0
}

// Member m's row, a part of the map.
#[tactic(auto, unfolding(rules_base::specs::Map::row_of))]
pub fn row(map: &[u8], m: u64) -> &[u8]
    ensures { result.now ≡ row_of map.now m }
{
    if map.len() != MAP_BYTES || 15 < m {
        return &[];
    }
    let a = 512 * (m as usize);
    &map[a..a + 512]
}
