// Extend: a leg is added to a pool in service.
ghost use Rattle.std.specs.Prelude.{◌≡◌};
ghost use Rattle.rules_base.specs.Refusals.{number_of};
ghost use Rattle.rules_client.specs.Extend.{picked, extend_refusal, extended, extend_told, extend_done, extend};

use client_rules::rules::{jobs, valid};
use client_run::{exits, recovery};
use client_state::{changes, roster};
use rules_base::Refusal;
use rules_pool::{Effect, Kind, Outcome, Pool, Roster, State, Told, Turn};

// The lowest id that is neither a member nor held by a session, 16 where there is none.
// A number and no Option: the rules' picked is one, and where there is none the event was refused.
#[tactic(auto, unfolding(rules_client::specs::Extend::picked))]
fn pick_id(ro: Roster) -> u64
    ensures { result ≡ picked ro }
{
    map_numbers::sets::lowest(roster::ids(Kind::Unused, ro))
}

#[tactic(auto, unfolding(rules_client::specs::Extend::extend_refusal))]
fn extend_allowed(p: Pool, sound: bool) -> Result<(), Refusal>
    ensures { number_of result ≡ extend_refusal p sound }
{
    if !valid(p) {
        return Err(Refusal::BadState);
    }
    if !sound {
        return Err(Refusal::BadMap);
    }
    if p.roster.sync {
        return Err(Refusal::OtherPool);
    }
    if !jobs::is_idle(p.job) {
        return Err(Refusal::JobInHand);
    }
    if roster::ids(Kind::Normals, p.roster) == 0 {
        return Err(Refusal::NotNormal);
    }
    if roster::ids(Kind::Unused, p.roster) == 0 {
        return Err(Refusal::NoFreeId);
    }
    Ok(())
}

#[tactic(auto, unfolding(rules_client::specs::Extend::extended))]
fn add(ro: Roster, id: u64) -> Roster
    ensures { result ≡ extended ro id }
{
    changes::enter_member(changes::enroll(ro, id, State::Reconnecting), id)
}

// Who is told of the new member, and who is to set its row.
fn extend_told(ro: Roster, id: u64) -> Told
    ensures { result ≡ extend_told ro id }
{
    Told::Extended(
        roster::ids(Kind::Told, ro),
        roster::ids(Kind::Normals, ro),
        id,
        ro.version,
    )
}

#[tactic(auto, unfolding(rules_client::specs::Extend::extend_done))]
fn extend_done(p: Pool, id: u64) -> Turn
    ensures { result ≡ extend_done p id }
{
    exits::try_with(
        p,
        recovery::with_roster(p, add(p.roster, id)),
        Outcome::Picked(id),
        extend_told(p.roster, id),
        Effect::FillRow(id, p.chunks),
    )
}

#[tactic(auto, unfolding(rules_client::specs::Extend::extend))]
pub fn extend(p: Pool, sound: bool) -> Turn
    ensures { result ≡ extend p sound }
{
    match extend_allowed(p, sound) {
        Ok(()) => extend_done(p, pick_id(p.roster)),
        Err(why) => exits::refuse(p, why.number()),
    }
}
