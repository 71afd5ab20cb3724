// Remove (delete or disassemble).
ghost use Rattle.std.specs.Prelude.{◌≡◌};
ghost use Rattle.rules_base.specs.Refusals.{number_of};
ghost use Rattle.rules_client.specs.Remove.{other_mode, remove_refusal, remove_begun, gone, remove};

use client_rules::rules::{jobs, valid};
use client_run::{exits, recovery};
use client_state::{changes, state};
use rules_base::Refusal;
use rules_client::Gone;
use rules_pool::{Mode, Outcome, Pool, Posted, State, Told, Turn};

fn other_mode(st: State, mode: Mode) -> bool
    ensures { result ≡ other_mode st mode }
{
    match mode {
        Mode::Delete => state::is_removing(st) && !state::is_deleting(st),
        Mode::Disassemble => state::is_deleting(st),
    }
}

#[tactic(auto, unfolding(rules_client::specs::Remove::remove_refusal))]
fn remove_allowed(p: Pool, sound: bool, id: u64, mode: Mode) -> Result<(), Refusal>
    ensures { number_of result ≡ remove_refusal p sound id mode }
{
    if !valid(p) {
        return Err(Refusal::BadState);
    }
    if !sound {
        return Err(Refusal::BadMap);
    }
    if 15 < id {
        return Err(Refusal::BadId);
    }
    if !jobs::is_idle(p.job) {
        return Err(Refusal::JobInHand);
    }
    let st = crate::removal::state_of(p, id);
    if state::is_free(st) {
        return Err(Refusal::NoSession);
    }
    if other_mode(st, mode) {
        return Err(Refusal::NotAllowed);
    }
    Ok(())
}

fn begin_removal(p: Pool, id: u64, mode: Mode) -> Gone
    ensures { result ≡ remove_begun p id mode }
{
    crate::removal::start(
        recovery::with_roster(p, changes::remove(p.roster, id, mode)),
        id,
    )
}

// An event that moved a removal on is accepted.
pub fn accept(p: Pool, g: Gone) -> Turn
    ensures { result ≡ gone p g }
{
    let Posted { pool, awaited } = g.posted;
    exits::accept(p, pool, Outcome::Plain, Told::Nothing, awaited, g.effect)
}

#[tactic(auto, unfolding(rules_client::specs::Remove::remove))]
pub fn remove(p: Pool, sound: bool, id: u64, mode: Mode) -> Turn
    ensures { result ≡ remove p sound id mode }
{
    match remove_allowed(p, sound, id, mode) {
        Ok(()) => accept(p, begin_removal(p, id, mode)),
        Err(why) => exits::refuse(p, why.number()),
    }
}
