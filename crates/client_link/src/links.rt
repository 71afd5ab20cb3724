// Link down, store check good, rejoin good, try.
ghost use Rattle.std.specs.Prelude.{◌≡◌};
ghost use Rattle.rules_base.specs.Refusals.{number_of};
ghost use Rattle.rules_client.specs.Links.{drops, down_refusal, dropped, down_at, link_down, back_refusal, checks, check_refusal, check_done, store_check, rejoin_refusal, rejoin, try_refusal, try_run};

use client_rules::rules::{jobs, valid};
use client_run::{exits, recovery};
use client_state::{changes, roster, state};
use rules_base::Refusal;
use rules_pool::{Cause, Effect, Job, Message, Outcome, Pool, Roster, State, Told, Turn};

#[tactic(auto, unfolding(rules_client::specs::Links::drops))]
fn may_drop(j: Job, st: State, id: u64) -> bool
    ensures { result ≡ drops j st id }
{
    matches!(st, State::Created | State::Normal | State::Reconnecting)
        || state::is_removing(st) && jobs::is_peer(j, id)
}

#[tactic(auto, unfolding(rules_client::specs::Links::down_refusal))]
fn down_allowed(p: Pool, id: u64) -> Result<(), Refusal>
    ensures { number_of result ≡ down_refusal p id }
{
    if !valid(p) {
        return Err(Refusal::BadState);
    }
    if 15 < id {
        return Err(Refusal::BadId);
    }
    let st = roster::session(p.roster, id).state;
    if state::is_free(st) {
        return Err(Refusal::NoSession);
    }
    if !may_drop(p.job, st, id) {
        return Err(Refusal::NotAllowed);
    }
    Ok(())
}

#[tactic(auto, unfolding(rules_client::specs::Links::dropped))]
fn drop_link(ro: Roster, id: u64) -> Roster
    ensures { result ≡ dropped ro id }
{
    if state::is_removing(roster::session(ro, id).state) {
        return ro;
    }
    changes::fail(ro, id, Cause::Link)
}

fn down_at(j: Job, p: Pool, id: u64) -> Turn
    ensures { result ≡ down_at j p id }
{
    let after = recovery::with_roster(p, drop_link(p.roster, id));
    match j {
        Job::Running(r) => {
            let told = recovery::disable_but(id, client_run::run::receiver(r));
            exits::try_after(p, recovery::end_run(after), Outcome::Taken(r.taken), told)
        }
        Job::Idle | Job::Removing(_) => exits::accept(
            p,
            exits::halt_if(jobs::is_peer(j, id), after),
            Outcome::Plain,
            Told::Nothing,
            Message::Nothing,
            Effect::Keep,
        ),
    }
}

#[tactic(auto, unfolding(rules_client::specs::Links::down_done, rules_client::specs::Links::link_down))]
pub fn link_down(p: Pool, id: u64) -> Turn
    ensures { result ≡ link_down p id }
{
    match down_allowed(p, id) {
        Ok(()) => down_at(p.job, p, id),
        Err(why) => exits::refuse(p, why.number()),
    }
}

#[tactic(auto, unfolding(rules_client::specs::Links::checks))]
fn may_check(sync: bool, st: State) -> bool
    ensures { result ≡ checks sync st }
{
    state::is_failed(st) || state::is_created(st) && !sync
}

// Whether an event may bring a session back, told whether the transition is allowed.
#[tactic(auto, unfolding(rules_client::specs::Links::back_refusal))]
fn back_allowed(p: Pool, id: u64, may: bool) -> Result<(), Refusal>
    ensures { number_of result ≡ back_refusal p id may }
{
    if !valid(p) {
        return Err(Refusal::BadState);
    }
    if 15 < id {
        return Err(Refusal::BadId);
    }
    if !jobs::is_idle(p.job) {
        return Err(Refusal::JobInHand);
    }
    if state::is_free(roster::session(p.roster, id).state) {
        return Err(Refusal::NoSession);
    }
    if !may {
        return Err(Refusal::NotAllowed);
    }
    Ok(())
}

#[tactic(auto, unfolding(rules_client::specs::Links::back_refusal, rules_client::specs::Links::check_refusal))]
fn check_allowed(p: Pool, id: u64) -> Result<(), Refusal>
    ensures { number_of result ≡ check_refusal p id }
{
    back_allowed(
        p,
        id,
        may_check(p.roster.sync, roster::session(p.roster, id).state),
    )
}

#[tactic(auto, unfolding(rules_client::specs::Links::check_done))]
fn check_done(p: Pool, id: u64) -> Turn
    ensures { result ≡ check_done p id }
{
    if p.roster.sync {
        return exits::change(p, changes::enter(p.roster, id), Told::Nothing);
    }
    let next = changes::go(p.roster, id, State::Reconnecting);
    exits::try_after(
        p,
        recovery::with_roster(p, next),
        Outcome::Plain,
        Told::Nothing,
    )
}

#[tactic(auto, unfolding(rules_client::specs::Links::store_check))]
pub fn store_check(p: Pool, id: u64) -> Turn
    ensures { result ≡ store_check p id }
{
    match check_allowed(p, id) {
        Ok(()) => check_done(p, id),
        Err(why) => exits::refuse(p, why.number()),
    }
}

#[tactic(auto, unfolding(rules_client::specs::Links::back_refusal, rules_client::specs::Links::rejoin_refusal))]
fn rejoin_allowed(p: Pool, id: u64) -> Result<(), Refusal>
    ensures { number_of result ≡ rejoin_refusal p id }
{
    back_allowed(p, id, state::is_cut(roster::session(p.roster, id).state))
}

#[tactic(auto, unfolding(rules_client::specs::Links::rejoin))]
pub fn rejoin(p: Pool, id: u64) -> Turn
    ensures { result ≡ rejoin p id }
{
    match rejoin_allowed(p, id) {
        Ok(()) => check_done(p, id),
        Err(why) => exits::refuse(p, why.number()),
    }
}

#[tactic(auto, unfolding(rules_client::specs::Links::try_refusal))]
fn try_allowed(p: Pool) -> Result<(), Refusal>
    ensures { number_of result ≡ try_refusal p }
{
    if !valid(p) {
        return Err(Refusal::BadState);
    }
    if p.roster.sync {
        return Err(Refusal::OtherPool);
    }
    if !jobs::is_idle(p.job) {
        return Err(Refusal::JobInHand);
    }
    Ok(())
}

#[tactic(auto, unfolding(rules_client::specs::Links::try_run))]
pub fn try_run(p: Pool) -> Turn
    ensures { result ≡ try_run p }
{
    match try_allowed(p) {
        Ok(()) => exits::try_after(p, p, Outcome::Plain, Told::Nothing),
        Err(why) => exits::refuse(p, why.number()),
    }
}
