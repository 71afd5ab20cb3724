// Any event of a node as one function: what it ensures is what the theorems say two answers may not differ in.
ghost use Rattle.rules_node.specs.Unique.{Meets};
ghost use Rattle.event.specs.OfNode.{event_of};
ghost use Rattle.node.specs.Face.{held, came};

use event::NodeEvent;
use node::{Out, StorageNode};
use rules_node::Answer;

// The event on the lent maps; part is what TakePart takes.
pub fn call(
    n: StorageNode,
    e: NodeEvent,
    map: &mut [u8],
    staging: &mut [u8],
    part: &[u8],
) -> Out<Answer>
    ensures { Meets (event_of e part.now) (held n) map.old staging.old (came result) map.new staging.new }
{
    let NodeEvent::TakePart(offset, _, _) = e else {
        return node::event(n, e, map, staging);
    };
    n.take_part(map, staging, offset, part)
}
