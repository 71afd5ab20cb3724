// The answer to an awaited message.
ghost use Rattle.std.specs.Prelude.{◌≡◌};
ghost use Rattle.rules_base.specs.Refusals.{number_of};
ghost use Rattle.rules_client.specs.Answers.{awaits, answer_refusal, entered_by, moved_on, reported, answered, answer};

use client_rules::rules::{jobs, valid};
use client_run::{exits, recovery};
use rules_base::Refusal;
use rules_pool::{Effect, Job, Move, Outcome, Pool, Posted, Reply, Roster, Turn};

fn awaits(p: Pool, number: u64) -> bool
    ensures { result ≡ awaits p number }
{
    !jobs::is_idle(p.job) && number == u64::from(p.number)
}

#[tactic(auto, unfolding(rules_client::specs::Answers::answer_refusal))]
fn answer_allowed(p: Pool, sound: bool, number: u64) -> Result<(), Refusal>
    ensures { number_of result ≡ answer_refusal p sound number }
{
    if !valid(p) {
        return Err(Refusal::BadState);
    }
    if !sound {
        return Err(Refusal::BadMap);
    }
    if !awaits(p, number) {
        return Err(Refusal::NotAwaited);
    }
    Ok(())
}

fn enter(w: Option<u64>, ro: Roster) -> Roster
    ensures { result ≡ entered_by w ro }
{
    match w {
        None => ro,
        Some(id) => client_state::changes::enter(ro, id),
    }
}

// Who became NORMAL is entered, then the run goes on or is over.
#[tactic(auto, unfolding(rules_client::specs::Answers::moved_on))]
fn move_on(p: Pool, m: Move) -> Posted
    ensures { result ≡ moved_on p m }
{
    recovery::go_on(m.next, recovery::with_roster(p, enter(m.normal, p.roster)))
}

fn report(p: Pool, m: Move) -> Turn
    ensures { result ≡ reported p m }
{
    let Posted { pool, awaited } = move_on(p, m);
    exits::accept(
        p,
        pool,
        Outcome::Taken(m.taken),
        recovery::disable(m.disable),
        awaited,
        Effect::Keep,
    )
}

fn answered(j: Job, p: Pool, a: Reply) -> Turn
    ensures { result ≡ answered j p a }
{
    match j {
        Job::Idle => exits::refuse(p, Refusal::NotAwaited.number()),
        Job::Running(r) => report(
            p,
            client_run::run::take(p.roster.members, p.roster.version, r, a),
        ),
        Job::Removing(m) => crate::removal::remove::accept(p, crate::removal::answer(m, p, a)),
    }
}

#[tactic(auto, unfolding(rules_client::specs::Answers::answer))]
pub fn answer(p: Pool, sound: bool, number: u64, a: Reply) -> Turn
    ensures { result ≡ answer p sound number a }
{
    match answer_allowed(p, sound, number) {
        Ok(()) => answered(p.job, p, a),
        Err(why) => exits::refuse(p, why.number()),
    }
}
