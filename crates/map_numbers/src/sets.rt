// Member ids and sets of them. Every function takes any number.
ghost use Rattle.std.specs.Prelude.{◌≡◌, ◌≤◌};
ghost use Rattle.rules_base.specs.Sets.{has, with, without, size, lowest};

// Whether the id is in the set.
#[tactic(auto, unfolding(rules_base::specs::Sets::has, laws_words::specs::Words::bit))]
pub fn has(set: u64, id: u64) -> bool
    ensures { result ≡ has set id }
{
    if 15 < id {
        return false;
    }
    (set >> id) % 2 == 1
}

// The set with the id entered.
#[tactic(auto, unfolding(rules_base::specs::Sets::with))]
pub fn with(set: u64, id: u64) -> u64
    ensures { result ≡ with set id }
{
    if 15 < id {
        return set;
    }
    set | 1 << id
}

// The set with the id taken out.
#[tactic(auto, unfolding(rules_base::specs::Sets::without))]
pub fn without(set: u64, id: u64) -> u64
    ensures { result ≡ without set id }
{
    if 15 < id {
        return set;
    }
    set & !(1 << id)
}

// How many ids the set holds.
#[tactic(auto, unfolding(rules_base::specs::Sets::size))]
pub fn size(set: u64) -> u64
    ensures value { result ≡ size set }
    ensures upper_bound { result ≤ 16 }
{
    // Tried as count_ones of the sixteen bits: the proof did not close but by a table of all 65,536 sets.
    let mut n: u64 = 0;
    for i in 0..16 {
        n += u64::from(has(set, i));
    }
    n
}

// The lowest id of the set, 16 where it holds none. A number and no Option: the rules' lowest is one, and their statements compute with its 16.
#[tactic(auto, unfolding(rules_base::specs::Sets::lowest), using(crate::proofs::Lowest::lowest_found))]
pub fn lowest(set: u64) -> u64
    ensures { result ≡ lowest set }
{
    // Tried as trailing_zeros of the set with bit 16: the proof did not close.
    for i in 0..16 {
        if has(set, i) {
            return i;
        }
    }
    16
}
