// A member's chunk in a dirty map: tested, marked, cleared, counted. Every operation takes a map of any length and any number, and leaves what the definition of
// specs/Chunk.antt gives.
#![tactic(auto)]

ghost use Rattle.std.specs.Prelude.{◌≡◌, ◌%◌, eqb, get_or, set, true, false, MatchOption};
ghost use Rattle.rules_base.specs.Chunk.{there, byte_of, dirty, chunk_marked, cleared, marked_for, count};

// The byte at i, and 0 past the end.
pub fn get(map: &[u8], i: usize) -> u8
    ensures { result ≡ get_or map.now i 0 }
{
    map.get(i).copied().unwrap_or(0)
}

// Stores v at i, and nothing past the end. A test and an index: with get_mut in mark and clear, their proofs did not close.
fn put(map: &mut [u8], i: usize, v: u8)
    ensures { map.new ≡ set map.old i v }
{
    if i < map.len() {
        map[i] = v;
    }
}

// The byte of member m's chunk c, and the bit's place in it; None where there is no such bit.
#[tactic(auto, unfolding(rules_base::specs::Chunk::byte_of))]
fn place(m: u64, c: u64) -> Option<(usize, u64)>
    ensures { MatchOption result (there m c ≡ false) (λ p. (there m c ≡ true) × (p ≡ (byte_of m c, c % 8))) }
{
    if 15 < m || 4095 < c {
        return None;
    }
    Some((512 * (m as usize) + (c as usize) / 8, c % 8))
}

// Whether chunk c is dirty for member m.
#[tactic(auto, unfolding(rules_base::specs::Chunk::dirty, laws_words::specs::Words::bit))]
pub fn test(map: &[u8], m: u64, c: u64) -> bool
    ensures { result ≡ eqb (dirty map.now m c) 1 }
{
    match place(m, c) {
        Some((i, bit)) => (get(map, i) >> bit) % 2 == 1,
        None => false,
    }
}

// Marks chunk c for member m.
#[tactic(auto, unfolding(rules_base::specs::Chunk::chunk_marked))]
pub fn mark(map: &mut [u8], m: u64, c: u64)
    ensures { map.new ≡ chunk_marked map.old m c }
{
    if let Some((i, bit)) = place(m, c) {
        let v = get(map, i) | 1 << bit;
        put(map, i, v);
    }
}

// Clears chunk c for member m.
#[tactic(auto, unfolding(rules_base::specs::Chunk::cleared))]
pub fn clear(map: &mut [u8], m: u64, c: u64)
    ensures { map.new ≡ cleared map.old m c }
{
    if let Some((i, bit)) = place(m, c) {
        let v = get(map, i) & !(1 << bit);
        put(map, i, v);
    }
}

// Marks chunk c for each member of the set. A loop: a walk over the ids that takes a closure on the lent map reads no plainer.
#[tactic(auto, unfolding(rules_base::specs::Chunk::marked_for, rules_base::specs::Chunk::each))]
pub fn mark_for(map: &mut [u8], set: u64, c: u64)
    ensures { map.new ≡ marked_for map.old set c }
{
    for m in 0..16 {
        if map_numbers::sets::has(set, m) {
            mark(map, m, c);
        }
    }
}

// How many of member m's chunks are dirty, counted by whole bytes.
pub fn count_row(map: &[u8], m: u64) -> u64
    ensures { result ≡ count map.now m }
{
    if 15 < m {
        return 0;
    }
    let row = 512 * (m as usize);
    let mut got: u64 = 0;
    for i in 0..512 {
        got += u64::from(get(map, row + i).count_ones());
    }
    got
}
