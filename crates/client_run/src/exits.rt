// How every client event ends.
ghost use Rattle.std.specs.Prelude.{◌≡◌};
ghost use Rattle.rules_pool.specs.Exit.{refused, accepted, changed, tried_with, tried_after, halted_if};

use client_state::state::is_nothing;
use rules_pool::{Answer, Effect, Message, Outcome, Pool, Roster, Sent, Told, Turn};

// Any number and no Refusal: the rules' refused takes any.
pub fn refuse(p: Pool, n: u64) -> Turn
    ensures { result ≡ refused p n }
{
    Turn {
        answer: Answer::Refused(n),
        pool: p,
        effect: Effect::Keep,
    }
}

// The one exit of every accepted event. before waits for a rule that compares the state before and after.
pub fn accept(
    before: Pool,
    after: Pool,
    outcome: Outcome,
    told: Told,
    awaited: Message,
    effect: Effect,
) -> Turn
    ensures { result ≡ accepted before after outcome told awaited effect }
{
    let sent = Sent {
        outcome,
        told,
        awaited,
        number: if is_nothing(awaited) { 0 } else { after.number },
    };
    Turn {
        answer: Answer::Done(sent),
        pool: after,
        effect,
    }
}

// An accepted event that changes the sessions and awaits nothing.
pub fn change(p: Pool, ro: Roster, told: Told) -> Turn
    ensures { result ≡ changed p ro told }
{
    let after = crate::recovery::with_roster(p, ro);
    accept(
        p,
        after,
        Outcome::Plain,
        told,
        Message::Nothing,
        Effect::Keep,
    )
}

// An accepted event after which recovery is tried.
pub fn try_with(before: Pool, after: Pool, outcome: Outcome, told: Told, effect: Effect) -> Turn
    ensures { result ≡ tried_with before after outcome told effect }
{
    let tried = crate::recovery::try_recovery(after);
    accept(before, tried.pool, outcome, told, tried.awaited, effect)
}

// One that does nothing to the client map.
pub fn try_after(before: Pool, after: Pool, outcome: Outcome, told: Told) -> Turn
    ensures { result ≡ tried_after before after outcome told }
{
    try_with(before, after, outcome, told, Effect::Keep)
}

// A removal whose awaited peer is lost halts.
pub fn halt_if(lost: bool, p: Pool) -> Pool
    ensures { result ≡ halted_if lost p }
{
    if lost {
        crate::recovery::end_removal(p)
    } else {
        p
    }
}
