// Any event of the client as one function: what it ensures is what the theorems say two answers may not differ in.
ghost use Rattle.std.specs.Prelude.{◌≡◌};
ghost use Rattle.rules_client.specs.ClientEvents.{Meets};
ghost use Rattle.event.specs.OfClient.{event_of, lent_of, own_left};
ghost use Rattle.client.specs.Client.{held, came};

use client::{Client, Out};
use event::Event;

// The event: own is the client's map, other the map that Synced reads.
pub fn call(c: Client, e: Event, own: &mut [u8], other: &[u8]) -> Out
    ensures meets { Meets (event_of e own.old other.now) (held c) (came result) (lent_of e own.new other.now) }
    ensures own_after { own.new ≡ own_left e (held c) own.old }
{
    client::event(c, e, own, other)
}
