// How a turn is put together: refused, or done.
ghost use Rattle.std.specs.Prelude.{not, ◌≡◌, eqb, ltb};
ghost use Rattle.laws_words.specs.Words.{pick};
ghost use Rattle.rules_base.specs.Refusals.{number, number_of};
ghost use Rattle.rules_node.specs.StateRules.{valid};
ghost use Rattle.rules_node.specs.Turns.{does, turn, refused, settled};

use crate::state_rules;
use rules_base::Refusal;
use rules_node::{Answer, Effect, Node, OnMap, OnStaging, Turn};

// What every event tests before its own tests: the state rules, what the lent maps refuse with, the node's own id.
// lent is a number and no Refusal: of it the events ask for 2 and 18 alone, and any other lets them by.
// n and lent side by side in every event, and no struct: the number is asked for here alone, and the rules take the two.
pub fn allowed(n: Node, lent: u64) -> Result<(), Refusal>
    ensures { number_of result ≡ pick (not (valid n)) 1 (pick (eqb lent 2) 2 (pick (eqb lent 18) 18 (pick (ltb 15 n.id) 3 0))) }
{
    if !state_rules::valid(n) {
        return Err(Refusal::BadState);
    }
    if lent == 2 {
        return Err(Refusal::BadMap);
    }
    if lent == 18 {
        return Err(Refusal::BadSummary);
    }
    if 15 < n.id {
        return Err(Refusal::BadId);
    }
    Ok(())
}

// Done: the next state, and what is done to map and staging.
pub fn done(n: Node, map: OnMap, staging: OnStaging) -> Turn
    ensures { result ≡ turn Answer.Done n (does map staging) }
{
    Turn {
        answer: Answer::Done,
        node: n,
        effect: Effect { map, staging },
    }
}

// Refused: the state and both maps stay.
pub fn refused(why: Refusal, n: Node) -> Turn
    ensures { result ≡ refused (number why) n }
{
    Turn {
        answer: Answer::Refused(why.number()),
        ..done(n, OnMap::Keep, OnStaging::Keep)
    }
}

// The turn of an event at the node, done or refused.
#[tactic(auto, unfolding(rules_node::specs::Turns::settled))]
pub fn settled(allowed: Result<(), Refusal>, n: Node, done: Turn) -> Turn
    ensures { result ≡ settled (number_of allowed) n done }
{
    match allowed {
        Ok(()) => done,
        Err(why) => refused(why, n),
    }
}
