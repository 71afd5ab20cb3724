// Write ended, synced.
ghost use Rattle.std.specs.Prelude.{◌≡◌, not, ltb, [], ◌∷◌};
ghost use Rattle.rules_base.specs.Refusals.{test, refusal, number_of};
ghost use Rattle.rules_pool.specs.Jobs.{is_running};
ghost use Rattle.rules_pool.specs.StateRules.{valid_pool};
ghost use Rattle.rules_client.specs.Writes.{reach_bars, write_refusal, miss_step, missed, loses, marks, write_done, write_ended, syncs, sync_refusal, synced};

use client_rules::rules::{jobs, valid};
use client_run::{exits, recovery};
use client_state::{changes, roster, state};
use map_numbers::sets;
use rules_base::Refusal;
use rules_pool::{Cause, Effect, Job, Kind, Message, Outcome, Pool, Roster, Told, Turn};

#[tactic(auto, unfolding(rules_client::specs::Writes::reach_bars))]
fn reach_bars(ro: Roster, reached: u64) -> bool
    ensures { result ≡ reach_bars ro reached }
{
    roster::ids(Kind::Normals, ro) == 0 || roster::ids(Kind::Abnormal(reached), ro) != 0
}

// What both events test before their own tests, told whether an id or a set is too high.
fn chunk_allowed(p: Pool, sound: bool, high: bool, chunk: u64) -> Result<(), Refusal>
    ensures { number_of result ≡ refusal (test 1 (not (valid_pool p)) ∷ test 2 (not sound) ∷ test 3 high ∷ test 4 (not (ltb chunk p.chunks)) ∷ test 5 p.roster.sync ∷ test 6 (is_running p.job) ∷ []) }
{
    if !valid(p) {
        return Err(Refusal::BadState);
    }
    if !sound {
        return Err(Refusal::BadMap);
    }
    if high {
        return Err(Refusal::BadId);
    }
    if p.chunks <= chunk {
        return Err(Refusal::BadChunk);
    }
    if p.roster.sync {
        return Err(Refusal::OtherPool);
    }
    if jobs::is_running(p.job) {
        return Err(Refusal::JobInHand);
    }
    Ok(())
}

#[tactic(auto, unfolding(rules_client::specs::Writes::write_refusal))]
fn write_allowed(p: Pool, sound: bool, chunk: u64, reached: u64) -> Result<(), Refusal>
    ensures { number_of result ≡ write_refusal p sound chunk reached }
{
    chunk_allowed(p, sound, 65535 < reached, chunk)?;
    if reach_bars(p.roster, reached) {
        return Err(Refusal::NotNormal);
    }
    Ok(())
}

#[tactic(auto, unfolding(rules_client::specs::Writes::miss_step))]
fn miss_step(reached: u64, i: u64, ro: Roster) -> Roster
    ensures { result ≡ miss_step reached i ro }
{
    if state::is_normal(roster::session(ro, i).state) && !sets::has(reached, i) {
        return changes::fail(ro, i, Cause::Io);
    }
    ro
}

// NORMAL sessions not reached become FAILED, ascending.
#[tactic(auto, unfolding(rules_client::specs::Writes::missed))]
fn miss(ro: Roster, reached: u64) -> Roster
    ensures { result ≡ missed ro reached }
{
    let mut next = ro;
    for i in 0..16 {
        next = miss_step(reached, i, next);
    }
    next
}

// Whether the write is the failed answer of the removal in hand.
fn is_lost(j: Job, ro: Roster, reached: u64) -> bool
    ensures { result ≡ loses j ro reached }
{
    match j {
        Job::Removing(m) => {
            sets::has(
                roster::ids(Kind::Unreached(reached), ro),
                jobs::peer_at(m.stage, m.id),
            )
        }
        Job::Idle | Job::Running(_) => false,
    }
}

#[tactic(auto, unfolding(rules_client::specs::Writes::marks))]
fn mark(before: Pool, after: Pool, chunk: u64, reached: u64) -> Turn
    ensures { result ≡ marks before after chunk reached }
{
    if reached == 0 {
        return exits::accept(
            before,
            after,
            Outcome::Written(false, 0),
            Told::Nothing,
            Message::Nothing,
            Effect::Keep,
        );
    }
    let list = roster::ids(Kind::Listed, after.roster);
    exits::accept(
        before,
        after,
        Outcome::Written(true, list),
        Told::Marks(reached, chunk, list, after.roster.version),
        Message::Nothing,
        Effect::Mark(list, chunk),
    )
}

#[tactic(auto, unfolding(rules_client::specs::Writes::write_done))]
fn write_done(p: Pool, chunk: u64, reached: u64) -> Turn
    ensures { result ≡ write_done p chunk reached }
{
    let lost = is_lost(p.job, p.roster, reached);
    let next = changes::write(miss(p.roster, reached), reached != 0);
    mark(
        p,
        exits::halt_if(lost, recovery::with_roster(p, next)),
        chunk,
        reached,
    )
}

#[tactic(auto, unfolding(rules_client::specs::Writes::write_ended))]
pub fn write_ended(p: Pool, sound: bool, chunk: u64, reached: u64) -> Turn
    ensures { result ≡ write_ended p sound chunk reached }
{
    match write_allowed(p, sound, chunk, reached) {
        Ok(()) => write_done(p, chunk, reached),
        Err(why) => exits::refuse(p, why.number()),
    }
}

#[tactic(auto, unfolding(rules_client::specs::Writes::syncs))]
fn may_sync(ro: Roster, member: u64, clean: u64) -> bool
    ensures { result ≡ syncs ro member clean }
{
    state::is_normal(roster::session(ro, member).state)
        && !sets::has(clean, member)
        && roster::ids(Kind::Reached(clean), ro) != 0
}

#[tactic(auto, unfolding(rules_client::specs::Writes::sync_refusal))]
fn sync_allowed(p: Pool, sound: bool, member: u64, chunk: u64, clean: u64) -> Result<(), Refusal>
    ensures { number_of result ≡ sync_refusal p sound member chunk clean }
{
    chunk_allowed(p, sound, 15 < member, chunk)?;
    if state::is_free(roster::session(p.roster, member).state) {
        return Err(Refusal::NoSession);
    }
    if roster::ids(Kind::Normals, p.roster) == 0 {
        return Err(Refusal::NotNormal);
    }
    if !may_sync(p.roster, member, clean) {
        return Err(Refusal::NotSyncable);
    }
    Ok(())
}

#[tactic(auto, unfolding(rules_client::specs::Writes::sync_done, rules_client::specs::Writes::synced))]
pub fn synced(p: Pool, sound: bool, member: u64, chunk: u64, clean: u64) -> Turn
    ensures { result ≡ synced p sound member chunk clean }
{
    match sync_allowed(p, sound, member, chunk, clean) {
        Ok(()) => exits::accept(
            p,
            p,
            Outcome::Plain,
            Told::Clears(roster::ids(Kind::Normals, p.roster), member, chunk),
            Message::Nothing,
            Effect::Keep,
        ),
        Err(why) => exits::refuse(p, why.number()),
    }
}
