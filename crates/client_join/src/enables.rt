// Enable, maintenance.
ghost use Rattle.std.specs.Prelude.{◌≡◌, not, ltb, [], ◌∷◌};
ghost use Rattle.rules_base.specs.Refusals.{test, refusal, number_of};
ghost use Rattle.rules_pool.specs.Jobs.{is_idle};
ghost use Rattle.rules_pool.specs.Session.{is_free};
ghost use Rattle.rules_pool.specs.Sessions.{session_at};
ghost use Rattle.rules_pool.specs.StateRules.{valid_pool};
ghost use Rattle.rules_client.specs.Enables.{enables, enable_refusal, enable_done, enable, maintenance_refusal, maintenance};

use client_rules::rules::{jobs, valid};
use client_run::{exits, recovery};
use client_state::{changes, roster, state};
use map_numbers::refusals::VERSION_LIMIT;
use rules_base::Refusal;
use rules_pool::{Outcome, Pool, Session, Told, Turn, Way};

#[tactic(auto, unfolding(rules_client::specs::Enables::enables))]
fn may_enable(s: Session) -> bool
    ensures { result ≡ enables s }
{
    state::is_created(s.state) || state::is_reconnecting(s.state) && s.maintenance
}

#[tactic(auto, unfolding(rules_client::specs::Enables::enable_refusal))]
fn enable_allowed(p: Pool, id: u64) -> Result<(), Refusal>
    ensures { number_of result ≡ enable_refusal p id }
{
    session_allowed(p, id)?;
    let s = roster::session(p.roster, id);
    if !may_enable(s) {
        return Err(Refusal::NotAllowed);
    }
    let created = state::is_created(s.state);
    if created && state::in_service(p.roster.past) {
        return Err(Refusal::TooLate);
    }
    if created && VERSION_LIMIT < p.roster.version {
        return Err(Refusal::HighVersion);
    }
    Ok(())
}

// What both events test before their own tests: a session of a non-sync pool, and no job in hand.
fn session_allowed(p: Pool, id: u64) -> Result<(), Refusal>
    ensures { number_of result ≡ refusal (test 1 (not (valid_pool p)) ∷ test 3 (ltb 15 id) ∷ test 5 p.roster.sync ∷ test 6 (not (is_idle p.job)) ∷ test 7 (is_free (session_at p.roster id).state) ∷ []) }
{
    if !valid(p) {
        return Err(Refusal::BadState);
    }
    if 15 < id {
        return Err(Refusal::BadId);
    }
    if p.roster.sync {
        return Err(Refusal::OtherPool);
    }
    if !jobs::is_idle(p.job) {
        return Err(Refusal::JobInHand);
    }
    if state::is_free(roster::session(p.roster, id).state) {
        return Err(Refusal::NoSession);
    }
    Ok(())
}

#[tactic(auto, unfolding(rules_client::specs::Enables::enable_done))]
fn enable_done(p: Pool, id: u64) -> Turn
    ensures { result ≡ enable_done p id }
{
    if state::is_created(roster::session(p.roster, id).state) {
        return exits::change(p, changes::enter(p.roster, id), Told::Nothing);
    }
    let next = changes::flag(p.roster, id, false);
    exits::try_after(
        p,
        recovery::with_roster(p, next),
        Outcome::Plain,
        Told::Nothing,
    )
}

#[tactic(auto, unfolding(rules_client::specs::Enables::enable))]
pub fn enable(p: Pool, id: u64) -> Turn
    ensures { result ≡ enable p id }
{
    match enable_allowed(p, id) {
        Ok(()) => enable_done(p, id),
        Err(why) => exits::refuse(p, why.number()),
    }
}

#[tactic(auto, unfolding(rules_client::specs::Enables::maintenance_refusal))]
fn maintenance_allowed(p: Pool, id: u64) -> Result<(), Refusal>
    ensures { number_of result ≡ maintenance_refusal p id }
{
    session_allowed(p, id)?;
    if !state::is_normal(roster::session(p.roster, id).state) {
        return Err(Refusal::NotAllowed);
    }
    Ok(())
}

#[tactic(auto, unfolding(rules_client::specs::Enables::maintenance_done, rules_client::specs::Enables::maintenance))]
pub fn maintenance(p: Pool, id: u64) -> Turn
    ensures { result ≡ maintenance p id }
{
    match maintenance_allowed(p, id) {
        Ok(()) => exits::change(
            p,
            changes::leave(p.roster, id, Way::Maintenance),
            Told::Off(id),
        ),
        Err(why) => exits::refuse(p, why.number()),
    }
}
