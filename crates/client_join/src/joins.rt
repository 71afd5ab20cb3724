// Join: create and assemble.
ghost use Rattle.std.specs.Prelude.{◌≡◌};
ghost use Rattle.rules_base.specs.Refusals.{number_of};
ghost use Rattle.rules_client.specs.Joins.{join_told, create_refusal, created, join_create, set_bars, assemble_refusal, assembled, join_assemble};

use client_rules::rules::{jobs, valid};
use client_run::{exits, recovery};
use client_state::{changes, roster, state};
use map_numbers::refusals::VERSION_LIMIT;
use map_numbers::sets;
use rules_base::{Op, Refusal};
use rules_pool::{Kind, Outcome, Pool, Roster, State, Told, Turn};

// Who is told of a join.
#[tactic(auto, unfolding(rules_client::specs::Joins::join_told))]
fn join_told(ro: Roster, op: Op, id: u64) -> Told
    ensures { result ≡ join_told ro op id }
{
    if ro.sync {
        return Told::Nothing;
    }
    Told::Infos(sets::without(roster::ids(Kind::Told, ro), id), op, id)
}

#[tactic(auto, unfolding(rules_client::specs::Joins::create_refusal))]
fn create_allowed(p: Pool, id: u64) -> Result<(), Refusal>
    ensures { number_of result ≡ create_refusal p id }
{
    if !valid(p) {
        return Err(Refusal::BadState);
    }
    if 15 < id {
        return Err(Refusal::BadId);
    }
    if !jobs::is_idle(p.job) {
        return Err(Refusal::JobInHand);
    }
    if !state::is_free(roster::session(p.roster, id).state) {
        return Err(Refusal::HasSession);
    }
    if !p.roster.sync && p.roster.past.written {
        return Err(Refusal::TooLate);
    }
    if sets::has(p.roster.members, id) {
        return Err(Refusal::BadMembership);
    }
    Ok(())
}

#[tactic(auto, unfolding(rules_client::specs::Joins::created))]
fn create(ro: Roster, id: u64) -> Roster
    ensures { result ≡ created ro id }
{
    if ro.sync {
        return changes::enroll(ro, id, State::Normal);
    }
    changes::enter_member(changes::enroll(ro, id, State::Created), id)
}

#[tactic(auto, unfolding(rules_client::specs::Joins::create_done, rules_client::specs::Joins::join_create))]
pub fn join_create(p: Pool, id: u64) -> Turn
    ensures { result ≡ join_create p id }
{
    match create_allowed(p, id) {
        Ok(()) => exits::change(
            p,
            create(p.roster, id),
            join_told(p.roster, Op::AddCreate, id),
        ),
        Err(why) => exits::refuse(p, why.number()),
    }
}

#[tactic(auto, unfolding(rules_client::specs::Joins::set_bars))]
fn set_bars(members: u64, set: u64, id: u64) -> bool
    ensures { result ≡ set_bars members set id }
{
    !sets::has(set, id) || members != 0 && set != members
}

#[tactic(auto, unfolding(rules_client::specs::Joins::assemble_refusal))]
fn assemble_allowed(p: Pool, id: u64, set: u64, version: u64) -> Result<(), Refusal>
    ensures { number_of result ≡ assemble_refusal p id set version }
{
    if !valid(p) {
        return Err(Refusal::BadState);
    }
    if 15 < id || 65535 < set {
        return Err(Refusal::BadId);
    }
    if p.roster.sync {
        return Err(Refusal::OtherPool);
    }
    if !jobs::is_idle(p.job) {
        return Err(Refusal::JobInHand);
    }
    if !state::is_free(roster::session(p.roster, id).state) {
        return Err(Refusal::HasSession);
    }
    if set_bars(p.roster.members, set, id) {
        return Err(Refusal::BadMembership);
    }
    if VERSION_LIMIT < version {
        return Err(Refusal::HighVersion);
    }
    Ok(())
}

#[tactic(auto, unfolding(rules_client::specs::Joins::assembled))]
fn assemble(ro: Roster, id: u64, set: u64, version: u64) -> Roster
    ensures { result ≡ assembled ro id set version }
{
    let taken = changes::take_over(ro, set, version);
    changes::go(
        changes::enroll(taken, id, State::Created),
        id,
        State::Reconnecting,
    )
}

#[tactic(auto, unfolding(rules_client::specs::Joins::assemble_done, rules_client::specs::Joins::join_assemble))]
pub fn join_assemble(p: Pool, id: u64, set: u64, version: u64) -> Turn
    ensures { result ≡ join_assemble p id set version }
{
    match assemble_allowed(p, id, set, version) {
        Ok(()) => exits::try_after(
            p,
            recovery::with_roster(p, assemble(p.roster, id, set, version)),
            Outcome::Plain,
            join_told(p.roster, Op::AddAssemble, id),
        ),
        Err(why) => exits::refuse(p, why.number()),
    }
}
