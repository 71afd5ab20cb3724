// The next dirty chunk at a node: taken in every state, and nothing changes. `lent` is the number that the lent maps refuse with.
ghost use Rattle.std.specs.Prelude.{◌≡◌};
ghost use Rattle.rules_base.specs.Refusals.{number_of};
ghost use Rattle.rules_node.specs.Next.{next_refusal, next_dirty};

use node_state::turns;
use rules_base::Refusal;
use rules_node::{Next, Node};

#[tactic(auto, unfolding(rules_node::specs::Next::next_refusal))]
fn next_allowed(n: Node, lent: u64, member: u64, start: u64) -> Result<(), Refusal>
    ensures { number_of result ≡ next_refusal n lent member start }
{
    turns::allowed(n, lent)?;
    if 15 < member {
        return Err(Refusal::BadId);
    }
    if n.chunks <= start {
        return Err(Refusal::BadChunk);
    }
    Ok(())
}

// found: what the search finds.
#[tactic(auto, unfolding(rules_node::specs::Next::next_dirty))]
pub fn next_dirty(n: Node, lent: u64, member: u64, start: u64, found: Option<u64>) -> Next
    ensures { result ≡ next_dirty n lent member start found }
{
    match next_allowed(n, lent, member, start) {
        Ok(()) => Next::Is(found),
        Err(why) => Next::Refused(why.number()),
    }
}
