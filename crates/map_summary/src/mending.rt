// How summaries follow a chunk that was marked or cleared, for one member or for those of a set: the places above it are marked anew, each set exactly when one of the sixteen below it
// is. Every public function takes a map of any length and any number. Words, map, m, level and i
// stay five parameters: the words are lent to be changed here and to be read elsewhere, so a struct of them would be two structs.
ghost use Rattle.std.specs.Prelude.{◌≡◌, ◌-◌, ◌*◌, ◌<◌, ◌≤◌};
ghost use Rattle.rules_base.specs.Summary.{some, size, lit};
ghost use Rattle.rules_base.specs.Mend.{bit_put, put, renewed, mended, mended_for};

use crate::summaries::Summaries;

// Bit k of a word set or cleared.
fn bit_put(k: u64, on: bool, w: u64) -> u64
    requires { k < 64 }
    ensures { result ≡ bit_put k on w }
{
    let p = 1u64 << k;
    if on { w | p } else { w & !p }
}

// Bit b of all words set or cleared.
#[tactic(auto, unfolding(rules_base::specs::Mend::put))]
fn put(words: &mut Summaries, b: u64, on: bool)
    requires { b < 6144 }
    ensures { words.new ≡ put b on words.old }
{
    let j = (b / 64) as usize;
    words[j] = bit_put(b % 64, on, words[j]);
}

// Whether one of the sixteen places below place i of the level is marked.
fn below(words: &Summaries, map: &[u8], m: u64, level: u64, i: u64) -> bool
    requires { (1 ≤ level) × (i < 4096) }
    ensures { result ≡ some (lit words.now map.now m (level - 1)) (16 * i) 16 }
{
    let mut got = false;
    for k in 0..16 {
        got |= crate::summaries::lit(words, map, m, level - 1, 16 * i + k);
    }
    got
}

// Marks place i of the level anew.
fn renew(words: &mut Summaries, map: &[u8], m: u64, level: u64, i: u64)
    requires { (m < 16) × ((1 ≤ level) × (i < size level)) }
    ensures { words.new ≡ renewed map.now m level i words.old }
{
    let on = below(words, map, m, level, i);
    put(words, 384 * m + crate::summaries::base(level) + i, on);
}

// Member m's chunk c was marked or cleared in the map.
pub fn mend(words: &mut Summaries, map: &[u8], m: u64, c: u64)
    ensures { words.new ≡ mended map.now m c words.old }
{
    if 15 < m || 4095 < c {
        return;
    }
    renew(words, map, m, 1, c / 16);
    renew(words, map, m, 2, c / 256);
    renew(words, map, m, 3, 0);
}

// Chunk c was marked or cleared for each member of the set. A loop: a walk over the ids that takes a closure on the lent words reads no plainer.
pub fn mend_for(words: &mut Summaries, map: &[u8], set: u64, c: u64)
    ensures { words.new ≡ mended_for map.now set c words.old }
{
    for m in 0..16 {
        if map_numbers::sets::has(set, m) {
            mend(words, map, m, c);
        }
    }
}
