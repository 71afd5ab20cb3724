// The summaries of a map: by them the next dirty chunk of a row is found without reading the row. Every public function takes a map of any length and any number, and gives
// what the definition of specs/Summary.antt says.
ghost use Rattle.std.specs.Prelude.{◌≡◌, true, ℕ, ◌+◌, ◌*◌, ◌<◌, length, get_or};
ghost use Rattle.std.specs.Int.Bits.{bit_or};
ghost use Rattle.rules_base.specs.Summary.{some, bits, word, word_at, summaries_of, agree, base, size, is_set, is_place, lit};

// Six words of 64 bits for each of the sixteen rows.
pub type Summaries = [u64; 96];

// ---- the words that are true of a map
// The OR of the two bytes from byte a on: not zero where one of their sixteen chunks is dirty. Whoever knows that both lie within the map says so: a loop finds that out once, and not at
// each byte.
fn pair(map: &[u8], within: bool, a: usize) -> u8
    requires { (a < 8192) × (within ≡ true → a + 1 < length map.now) }
    ensures { result ≡ bit_or (get_or map.now a 0) (get_or map.now (a + 1) 0) }
{
    if within {
        map[a] | map[a + 1]
    } else {
        map_chunk::get(map, a) | map_chunk::get(map, a + 1)
    }
}

// Word k of member m's groups: 64 of them, two bytes of the row each. This alone reads the map.
#[tactic(auto, unfolding(rules_base::specs::Summary::word), using(crate::proofs::Digits::bits_room, crate::proofs::Digits::bits_whole))]
fn groups(map: &[u8], m: u64, k: u64) -> u64
    requires { (m < 16) × (k < 4) }
    ensures { result ≡ word map.now m 1 (64 * k) 64 }
{
    let from = (512 * m + 128 * k) as usize;
    let within = from + 128 <= map.len();
    // The highest digit first, the others moved up by one place at each turn. A node's event spends most of its time here: with `1u64 << i` put in where a pair is not zero it took up to
    // 1.7 times as long, with 2^i kept from turn to turn up to 1.4 times.
    let mut got: u64 = 0;
    for i in (0..64).rev() {
        got = 2 * got + u64::from(pair(map, within, from + 2 * i) != 0);
    }
    got
}

// The word of member m's groups of groups, by the four words of its groups: sixteen bits for each place.
fn over(words: &Summaries, m: u64) -> u64
    requires { m < 16 }
    ensures { result ≡ bits (λ i. some (is_set words.now) (384 * m + 16 * i) 16) 16 }
{
    let mut got: u64 = 0;
    for i in 0..16 {
        if (words[(6 * m + i / 4) as usize] >> (16 * (i % 4))) % 65536 != 0 {
            got |= 1u64 << i;
        }
    }
    got
}

// Word j of the map's summaries, where the words before it are the map's: a word of groups by the map, any other by the level below, so that the map is read once and not at each level.
fn word_at(words: &Summaries, map: &[u8], j: u64) -> u64
    requires { (j < 96) × ((k : ℕ) → k < j → get_or words.now k 0 ≡ word_at map.now k) }
    ensures { result ≡ word_at map.now j }
{
    let m = j / 6;
    let k = j % 6;
    if k < 4 {
        return groups(map, m, k);
    }
    if k == 4 {
        return over(words, m);
    }
    let below = words[(6 * m + 4) as usize];
    u64::from(below != 0)
}

// The summaries of the map.
pub fn of_map(map: &[u8]) -> Summaries
    ensures { result ≡ summaries_of map.now }
{
    let mut words = [0u64; 96];
    for j in 0..96 {
        words[j] = word_at(&words, map, j as u64);
    }
    words
}

// Whether the summaries agree with the map, in every row and every bit. It reads the whole map.
pub fn agree(words: Summaries, map: &[u8]) -> bool
    ensures { result ≡ agree words map.now }
{
    words == of_map(map)
}

// ---- where a place's bit is
const BASES: [u64; 4] = [0, 0, 256, 320];

const SIZES: [u64; 4] = [4096, 256, 16, 1];

// No match on the level: the definitions are such tables, and one look-up proves both.
fn entry(table: [u64; 4], level: u64) -> u64
    ensures { result ≡ get_or table level 0 }
{
    if level < 4 { table[level as usize] } else { 0 }
}

// The bit of a row's 384 at which a level starts.
#[tactic(auto, unfolding(rules_base::specs::Summary::base))]
pub fn base(level: u64) -> u64
    ensures { result ≡ base level }
{
    entry(BASES, level)
}

// How many places a level has.
#[tactic(auto, unfolding(rules_base::specs::Summary::size))]
pub fn size(level: u64) -> u64
    ensures { result ≡ size level }
{
    entry(SIZES, level)
}

// Whether member m has a place i of the level.
#[tactic(auto, unfolding(rules_base::specs::Summary::is_place))]
pub fn is_place(m: u64, level: u64, i: u64) -> bool
    ensures { result ≡ is_place m level i }
{
    m < 16 && i < size(level)
}

// Whether bit b of the words is set.
#[tactic(auto, unfolding(rules_base::specs::Summary::is_set, laws_words::specs::Words::bit))]
fn is_set(words: &Summaries, b: u64) -> bool
    requires { b < 6144 }
    ensures { result ≡ is_set words.now b }
{
    (words[(b / 64) as usize] >> (b % 64)) % 2 == 1
}

// Whether the place is marked as dirty: a chunk by its own bit in the map, any other place by its bit in the summaries. Five parameters and no struct: mending.rt says why.
pub fn lit(words: &Summaries, map: &[u8], m: u64, level: u64, i: u64) -> bool
    ensures { result ≡ lit words.now map.now m level i }
{
    if level == 0 {
        return map_chunk::test(map, m, i);
    }
    if !is_place(m, level, i) {
        return false;
    }
    is_set(words, 384 * m + base(level) + i)
}
