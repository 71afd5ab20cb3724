// Enable 1, enable 0, fault.
ghost use Rattle.std.specs.Prelude.{◌≡◌};
ghost use Rattle.rules_base.specs.Refusals.{number_of};
ghost use Rattle.rules_node.specs.Enable.{enable1_refusal, enabled, enable1, stop_refusal, disabled, enable0, fault};

use node_state::{change, states, turns};
use rules_base::Refusal;
use rules_node::{Node, OnMap, OnStaging, State, Turn};

#[tactic(auto, unfolding(rules_node::specs::Enable::enable1_refusal))]
fn enable1_allowed(n: Node, lent: u64, version: u64, set: u64) -> Result<(), Refusal>
    ensures { number_of result ≡ enable1_refusal n lent version set }
{
    turns::allowed(n, lent)?;
    if 65535 < set {
        return Err(Refusal::BadId);
    }
    if !states::is_serving(n) {
        return Err(Refusal::NotAllowed);
    }
    if !map_numbers::sets::has(set, n.id) {
        return Err(Refusal::BadMembership);
    }
    if map_numbers::refusals::VERSION_LIMIT < version {
        return Err(Refusal::HighVersion);
    }
    Ok(())
}

// Serving to NORMAL, with the version and the member set it is told. Staging is dropped.
#[tactic(auto, unfolding(rules_node::specs::Enable::enable1))]
pub fn enable1(n: Node, lent: u64, version: u64, set: u64) -> Turn
    ensures { result ≡ enable1 n lent version set }
{
    turns::settled(
        enable1_allowed(n, lent, version, set),
        n,
        turns::done(
            enabled(n, version, set),
            OnMap::KeepRows(set),
            OnStaging::Zero,
        ),
    )
}

#[tactic(auto, unfolding(rules_node::specs::Enable::enabled))]
fn enabled(n: Node, version: u64, set: u64) -> Node
    ensures { result ≡ enabled n version set }
{
    let here = change::went_to(n, State::Normal);
    change::instructed(change::ended_transfer(here), version, set)
}

// What refuses enable 0 and fault.
#[tactic(auto, unfolding(rules_node::specs::Enable::stop_refusal))]
fn stop_allowed(n: Node, lent: u64) -> Result<(), Refusal>
    ensures { number_of result ≡ stop_refusal n lent }
{
    turns::allowed(n, lent)?;
    if !matches!(n.state, State::Normal | State::NoIo) {
        return Err(Refusal::NotAllowed);
    }
    Ok(())
}

// NORMAL, NO_IO to NO_IO. Staging is dropped.
#[tactic(auto, unfolding(rules_node::specs::Enable::enable0))]
pub fn enable0(n: Node, lent: u64) -> Turn
    ensures { result ≡ enable0 n lent }
{
    turns::settled(
        stop_allowed(n, lent),
        n,
        turns::done(disabled(n), OnMap::Keep, OnStaging::Zero),
    )
}

#[tactic(auto, unfolding(rules_node::specs::Enable::disabled))]
fn disabled(n: Node) -> Node
    ensures { result ≡ disabled n }
{
    change::ended_transfer(change::went_to(n, State::NoIo))
}

// NORMAL, NO_IO to NO_IO. A transfer survives it.
#[tactic(auto, unfolding(rules_node::specs::Enable::fault))]
pub fn fault(n: Node, lent: u64) -> Turn
    ensures { result ≡ fault n lent }
{
    turns::settled(
        stop_allowed(n, lent),
        n,
        turns::done(
            change::went_to(n, State::NoIo),
            OnMap::Keep,
            OnStaging::Keep,
        ),
    )
}
