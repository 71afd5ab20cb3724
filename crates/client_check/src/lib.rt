// Map check on the client: each tick asks every NORMAL member with a non-empty client row; two empty answers in a row zero that row.
#![tactic(auto)]

ghost use Rattle.std.specs.Prelude.{◌≡◌};
ghost use Rattle.rules_base.specs.Refusals.{number, number_of};
ghost use Rattle.rules_client.specs.MapCheck.{no_check, tick_refusal, ticked, tells_of, declined, tick, answer_refusal, answered, clears, answer, after};

use client_rules::rules::{jobs, valid};
use client_state::{roster, state};
use map_numbers::sets;
use rules_base::Refusal;
use rules_client::{Check, Checked};
use rules_pool::{Answer, Effect, Kind, Message, Outcome, Pool, Sent, Told, Turn};

pub fn none() -> Check
    ensures { result ≡ no_check }
{
    Check {
        tick: 0,
        due: 0,
        once: 0,
    }
}

// The check after an event of the pool: a row of empty answers is broken, or stands.
pub fn after(k: Check, before: Pool, t: Turn) -> Check
    ensures { result ≡ after k before t }
{
    if client_rules::breaking::breaks(before, t) {
        return Check { once: 0, ..k };
    }
    k
}

fn tells(told: Told) -> Answer
    ensures { result ≡ tells_of told }
{
    Answer::Done(Sent {
        outcome: Outcome::Plain,
        told,
        awaited: Message::Nothing,
        number: 0,
    })
}

fn decline(k: Check, why: Refusal) -> Checked
    ensures { result ≡ declined k (number why) }
{
    Checked {
        answer: Answer::Refused(why.number()),
        check: k,
        effect: Effect::Keep,
    }
}

#[tactic(auto, unfolding(rules_client::specs::MapCheck::tick_refusal))]
fn tick_allowed(p: Pool, sound: bool) -> Result<(), Refusal>
    ensures { number_of result ≡ tick_refusal p sound }
{
    if !valid(p) {
        return Err(Refusal::BadState);
    }
    if !sound {
        return Err(Refusal::BadMap);
    }
    if p.roster.sync {
        return Err(Refusal::OtherPool);
    }
    if !jobs::is_idle(p.job) {
        return Err(Refusal::JobInHand);
    }
    Ok(())
}

// The next tick, which asks these members.
fn ticked(k: Check, asked: u16) -> Check
    ensures { result ≡ ticked k asked }
{
    Check {
        tick: k.tick.wrapping_add(1),
        due: asked,
        ..k
    }
}

// full: the ids whose client row is not empty.
#[tactic(auto, unfolding(rules_client::specs::MapCheck::tick))]
pub fn tick(p: Pool, k: Check, sound: bool, full: u64) -> Checked
    ensures { result ≡ tick p k sound full }
{
    if let Err(why) = tick_allowed(p, sound) {
        return decline(k, why);
    }
    let asked = roster::ids(Kind::Reached(full), p.roster);
    // A cast, here and below: not every u64 is a u16, but a set of ids is.
    let next = ticked(k, asked as u16);
    Checked {
        answer: tells(Told::Checks(asked, u64::from(next.tick))),
        check: next,
        effect: Effect::Keep,
    }
}

#[tactic(auto, unfolding(rules_client::specs::MapCheck::answer_refusal))]
fn answer_allowed(p: Pool, k: Check, sound: bool, number: u64, m: u64) -> Result<(), Refusal>
    ensures { number_of result ≡ answer_refusal p k sound number m }
{
    if !valid(p) {
        return Err(Refusal::BadState);
    }
    if !sound {
        return Err(Refusal::BadMap);
    }
    if 15 < m {
        return Err(Refusal::BadId);
    }
    if p.roster.sync {
        return Err(Refusal::OtherPool);
    }
    if !jobs::is_idle(p.job) {
        return Err(Refusal::JobInHand);
    }
    if state::is_free(roster::session(p.roster, m).state) {
        return Err(Refusal::NoSession);
    }
    if number != u64::from(k.tick) || !sets::has(u64::from(k.due), m) {
        return Err(Refusal::NotAwaited);
    }
    Ok(())
}

// The member's answer is no longer due. An empty one stands if none did; else none stands any more.
fn answered(k: Check, m: u64, empty: bool) -> Check
    ensures { result ≡ answered k m empty }
{
    let once = u64::from(k.once);
    let due = sets::without(u64::from(k.due), m) as u16;
    if empty && !sets::has(once, m) {
        return Check {
            due,
            once: sets::with(once, m) as u16,
            ..k
        };
    }
    Check {
        due,
        once: sets::without(once, m) as u16,
        ..k
    }
}

// The second empty answer in a row zeroes the client row.
fn clears(k: Check, m: u64, empty: bool) -> Effect
    ensures { result ≡ clears k m empty }
{
    if empty && sets::has(u64::from(k.once), m) {
        return Effect::ZeroRow(m);
    }
    Effect::Keep
}

#[tactic(auto, unfolding(rules_client::specs::MapCheck::answer))]
pub fn answer(p: Pool, k: Check, sound: bool, number: u64, m: u64, empty: bool) -> Checked
    ensures { result ≡ answer p k sound number m empty }
{
    if let Err(why) = answer_allowed(p, k, sound, number, m) {
        return decline(k, why);
    }
    Checked {
        answer: tells(Told::Nothing),
        check: answered(k, m, empty),
        effect: clears(k, m, empty),
    }
}
