// Map check at a node: taken in every state, and nothing changes. `lent` is the number that the lent maps refuse with.
ghost use Rattle.std.specs.Prelude.{◌≡◌};
ghost use Rattle.rules_node.specs.Check.{map_check};

use node_state::turns;
use rules_node::{Checked, Node, State};

// clean: the node's own row is empty.
#[tactic(auto, unfolding(rules_node::specs::Check::map_check, rules_node::specs::Check::check_refusal))]
pub fn map_check(n: Node, lent: u64, clean: bool) -> Checked
    ensures { result ≡ map_check n lent clean }
{
    match turns::allowed(n, lent) {
        Ok(()) => Checked::Empty(n.state == State::Normal && clean),
        Err(why) => Checked::Refused(why.number()),
    }
}
