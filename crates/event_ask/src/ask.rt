// What a node answers to a question, its two maps lent as far as the lab lends them. The maps are only read, and the node stays.
ghost use Rattle.std.specs.Prelude.{◌≡◌};
ghost use Rattle.event_ask.specs.Ask.{of_check, of_next, finding_of, node_finds};

use crate::lending;
use crate::lending::Lent;
use event::Question;
use node::StorageNode;
use rules_node::{Checked, Next};

// Empty: whether the node is NORMAL and its own row is empty. Next: the next dirty chunk, or none. No plainer as a Result: what is good is of two kinds, so an enum for it would stand beside.
#[derive(Clone, Copy)]
pub enum Finding {
    Refused(u64),
    Empty(bool),
    Next(Option<u64>),
}

impl From<Checked> for Finding {
    ghost from_gives = { λ c f. f ≡ of_check c };

    fn from(c: Checked) -> Finding {
        match c {
            Checked::Refused(why) => Finding::Refused(why),
            Checked::Empty(empty) => Finding::Empty(empty),
        }
    }
}

impl From<Next> for Finding {
    ghost from_gives = { λ a f. f ≡ of_next a };

    fn from(a: Next) -> Finding {
        match a {
            Next::Refused(why) => Finding::Refused(why),
            Next::Is(found) => Finding::Next(found),
        }
    }
}

// The question, on the node's own maps.
pub fn call(n: StorageNode, q: Question, map: &[u8], staging: &[u8]) -> Finding
    ensures { result ≡ finding_of q n map.now staging.now }
{
    match q {
        Question::MapCheck => Finding::from(n.map_check(map, staging).answer),
        Question::Next(member, start) => Finding::from(n.next(map, staging, member, start).answer),
    }
}

// The question to node k, on its part of the nodes' maps and of their staging maps.
pub fn ask(n: StorageNode, k: u64, lent: Lent, q: Question, maps: &[u8], stagings: &[u8]) -> Finding
    ensures { result ≡ node_finds n k lent q maps.now stagings.now }
{
    let map = lending::part(maps, k, lending::size(lent.maps, k));
    let staging = lending::part(stagings, k, lending::size(lent.stagings, k));
    call(n, q, map, staging)
}
