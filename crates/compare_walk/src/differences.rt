// Where two map dumps differ: the next difference at or after a member's chunk. Asked for again and again, it lists them all; nothing is stored between.
ghost use Rattle.std.specs.Prelude.{◌≡◌, ◌-◌};
ghost use Rattle.compare_walk.specs.Differences.{dump_number, which, first_place, told, next_difference};

use rules_base::Refusal;

// One of the two dumps.
#[derive(Clone, Copy, PartialEq, Eq)]
pub enum Dump {
    First,
    Second,
}

impl Dump {
    pub fn number(self) -> u64
        ensures { result ≡ dump_number self }
    {
        match self {
            Dump::First => 1,
            Dump::Second => 2,
        }
    }
}

// A member's chunk that is dirty in one dump only, and in which.
#[derive(Clone, Copy)]
pub struct Difference {
    pub member: u64,
    pub chunk: u64,
    pub which: Dump,
}

// Members times chunks: the places of a map, 4,096 for each member.
const PLACES: u64 = 65536;

// The dump in which alone the chunk is dirty; none where it is dirty in both or in neither.
#[tactic(auto, unfolding(crate::specs::Differences::which))]
fn which(first: &[u8], second: &[u8], m: u64, c: u64) -> Option<Dump>
    ensures { result ≡ which first.now second.now m c }
{
    match (map_chunk::test(first, m, c), map_chunk::test(second, m, c)) {
        (true, false) => Some(Dump::First),
        (false, true) => Some(Dump::Second),
        (true, true) | (false, false) => None,
    }
}

// The first difference at or after the place `from`.
fn seek(first: &[u8], second: &[u8], from: u64) -> Option<Difference>
    ensures { result ≡ told first.now second.now (first_place first.now second.now from (65536 - from)) }
{
    for p in from..PLACES {
        let member = p / 4096;
        let chunk = p % 4096;
        if let Some(which) = which(first, second, member, chunk) {
            return Some(Difference {
                member,
                chunk,
                which,
            });
        }
    }
    None
}

// The first difference at or after the member's chunk, by member, then chunk; none where there are no more. The walk goes on from the chunk after the one found.
pub fn next_difference(
    first: &[u8],
    second: &[u8],
    member: u64,
    chunk: u64,
) -> Result<Option<Difference>, Refusal>
    ensures { result ≡ next_difference first.now second.now member chunk }
{
    crate::dumps::refusal(first, second, member)?;
    Ok(seek(first, second, 4096 * member + chunk.min(4096)))
}
