// A client's event, its map and the node's map that it reads lent as far as the lab lends them.
ghost use Rattle.std.specs.Prelude.{◌≡◌};
ghost use Rattle.lab_lend.specs.Client.{lender, client_hands, own_after};

use client::{Client, Out};
use event::Event;
use event_ask::lending::Lent;

// Whose map is read, if any.
fn read_from(e: Event) -> Option<u64>
    ensures { result ≡ lender e }
{
    match e {
        Event::Synced(_, _, n) => Some(n),
        _ => None,
    }
}

// The event; own is the client's map, maps are those of the nodes.
pub fn client_event(c: Client, lent: Lent, e: Event, own: &mut [u8], maps: &[u8]) -> Out
    ensures value { result ≡ client_hands c lent e own.old maps.now }
    ensures own_after { own.new ≡ own_after c lent e own.old }
{
    let s = event_ask::lending::find(own.len(), 0, event_ask::lending::cut(lent.own));
    match read_from(e) {
        None => event_call::client_event::call(c, e, &mut own[s.from..s.to], &[]),
        Some(n) => {
            let t = event_ask::lending::find(maps.len(), n, event_ask::lending::size(lent.maps, n));
            event_call::client_event::call(c, e, &mut own[s.from..s.to], &maps[t.from..t.to])
        }
    }
}
