// The answers still possible in a run.
ghost use Rattle.std.specs.Prelude.{◌≡◌};
ghost use Rattle.rules_pool.specs.Still.{steps_done, possible};

use map_numbers::sets::size;
use rules_pool::{Phase, Run, Step};

fn steps_done(s: Step) -> u64
    ensures { result ≡ steps_done s }
{
    match s {
        Step::Ready => 0,
        Step::Send => 1,
        Step::Done => 2,
    }
}

// The awaited answers to the end of the run if every further one is good, the awaited one with them.
#[tactic(auto, unfolding(rules_pool::specs::Still::possible))]
pub fn possible(members: u64, r: Run) -> u64
    ensures { result ≡ possible members r }
{
    let k = size(members);
    let l = size(r.left);
    let o = k.saturating_sub(1);
    match r.phase {
        Phase::Versions(_) => l + 3 * o + k + 3 * o + 1 + 3 * o,
        Phase::Base(s) => (3 * l).saturating_sub(steps_done(s)) + k + 3 * o + 1 + 3 * o,
        Phase::LastIo => l + 3 * o + 1 + 3 * o,
        Phase::Gather(s) => (3 * l).saturating_sub(steps_done(s)) + 1 + 3 * o,
        Phase::Enable(_) => 1 + 3 * l,
        Phase::Spread(s) => (3 * l).saturating_sub(steps_done(s)),
    }
}
