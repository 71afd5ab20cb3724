// The job in hand: whether there is one, and who is awaited in a removal.
ghost use Rattle.std.specs.Prelude.{◌≡◌};
ghost use Rattle.rules_pool.specs.Jobs.{is_idle, is_running, peer_at, is_peer};

use rules_pool::{Job, Stage};

pub fn is_idle(j: Job) -> bool
    ensures { result ≡ is_idle j }
{
    matches!(j, Job::Idle)
}

pub fn is_running(j: Job) -> bool
    ensures { result ≡ is_running j }
{
    matches!(j, Job::Running(_))
}

pub fn peer_at(s: Stage, id: u64) -> u64
    ensures { result ≡ peer_at s id }
{
    match s {
        Stage::Leave => id,
        Stage::Info(peer) => peer,
    }
}

// Whether the id is the awaited peer of the removal in hand.
pub fn is_peer(j: Job, id: u64) -> bool
    ensures { result ≡ is_peer j id }
{
    matches!(j, Job::Removing(m) if peer_at(m.stage, m.id) == id)
}
