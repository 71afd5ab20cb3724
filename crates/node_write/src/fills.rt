// Fill: a leg was added to the pool in service, and none of its chunks is known to be there.
ghost use Rattle.std.specs.Prelude.{◌≡◌};
ghost use Rattle.rules_base.specs.Refusals.{number_of};
ghost use Rattle.rules_node.specs.Fill.{fill_refusal, filled, fill};

use node_state::{change, states, turns};
use rules_base::Refusal;
use rules_node::{Node, OnMap, OnStaging, Turn};

#[tactic(auto, unfolding(rules_node::specs::Fill::fill_refusal))]
fn fill_allowed(n: Node, lent: u64, member: u64, version: u64) -> Result<(), Refusal>
    ensures { number_of result ≡ fill_refusal n lent member version }
{
    turns::allowed(n, lent)?;
    if 15 < member {
        return Err(Refusal::BadId);
    }
    if !states::is_joined(n.state) {
        return Err(Refusal::NotAllowed);
    }
    if !map_numbers::sets::has(n.members, member) {
        return Err(Refusal::BadMembership);
    }
    if map_numbers::refusals::VERSION_TOP < version {
        return Err(Refusal::HighVersion);
    }
    Ok(())
}

// Every chunk is marked for the member and the larger version stored; the kept chunks stay.
#[tactic(auto, unfolding(rules_node::specs::Fill::fill))]
pub fn fill(n: Node, lent: u64, member: u64, version: u64) -> Turn
    ensures { result ≡ fill n lent member version }
{
    turns::settled(
        fill_allowed(n, lent, member, version),
        n,
        turns::done(filled(n, version), OnMap::FillRow(member), OnStaging::Keep),
    )
}

// It may arrive after a write of a later version, so the version never falls.
#[tactic(auto, unfolding(rules_node::specs::Fill::filled))]
fn filled(n: Node, version: u64) -> Node
    ensures { result ≡ filled n version }
{
    change::stored_version(n, n.version.max(version))
}
