// The awaited message of a job: its sending, the end of a run and of a removal, recovery tried.
pub mod cases;

ghost use Rattle.std.specs.Prelude.{◌≡◌};
ghost use Rattle.rules_pool.specs.Recovery.{with_roster, posted, quiet, run_ended, removal_ended, sent_by, gone_on, tried, disabling, disabling_but};

use rules_pool::{Job, Message, Pool, Posted, Roster, Run, Told};

pub fn with_roster(p: Pool, ro: Roster) -> Pool
    ensures { result ≡ with_roster p ro }
{
    Pool { roster: ro, ..p }
}

// The awaited message of a job is sent, and numbered.
#[tactic(auto, unfolding(rules_pool::specs::Recovery::posted))]
pub fn post(p: Pool, j: Job, m: Message) -> Posted
    ensures { result ≡ posted p j m }
{
    let number = p.number.wrapping_add(1);
    Posted {
        pool: Pool {
            job: j,
            number,
            ..p
        },
        awaited: m,
    }
}

// Nothing is sent.
pub fn rest(p: Pool) -> Posted
    ensures { result ≡ quiet p }
{
    Posted {
        pool: p,
        awaited: Message::Nothing,
    }
}

// A run is over: finished, failed or cut off. The version is raised.
pub fn end_run(p: Pool) -> Pool
    ensures { result ≡ run_ended p }
{
    Pool {
        roster: client_state::changes::raise(p.roster),
        job: Job::Idle,
        ..p
    }
}

// A removal is over: finished or halted.
pub fn end_removal(p: Pool) -> Pool
    ensures { result ≡ removal_ended p }
{
    Pool {
        job: Job::Idle,
        ..p
    }
}

fn send_by(p: Pool, r: Run) -> Posted
    ensures { result ≡ sent_by p r }
{
    let m = crate::run::awaited(p.roster.members, p.roster.version, r);
    post(p, Job::Running(r), m)
}

// A run goes on, or is over.
pub fn go_on(n: Option<Run>, p: Pool) -> Posted
    ensures { result ≡ gone_on n p }
{
    match n {
        None => rest(end_run(p)),
        Some(r) => send_by(p, r),
    }
}

// Recovery is tried: a run begins, or nothing changes.
#[tactic(auto, unfolding(rules_pool::specs::Recovery::tried))]
pub fn try_recovery(p: Pool) -> Posted
    ensures { result ≡ tried p }
{
    match cases::begin(p.roster) {
        None => rest(p),
        Some(r) => send_by(p, r),
    }
}

// MAP_DISABLE to one session or none.
pub fn disable(w: Option<u64>) -> Told
    ensures { result ≡ disabling w }
{
    w.map_or(Told::Nothing, Told::Disable)
}

// MAP_DISABLE, but not to the session whose link is down.
pub fn disable_but(id: u64, w: Option<u64>) -> Told
    ensures { result ≡ disabling_but id w }
{
    disable(w.filter(|x| *x != id))
}
