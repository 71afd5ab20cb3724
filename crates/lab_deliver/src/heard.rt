// What the client hears of a message that was delivered, and which of its own messages go out.
ghost use Rattle.std.specs.Prelude.{◌≡◌};
ghost use Rattle.lab_deliver.specs.Heard.{to_awaited, to_check, told_if};

use event::Event;
use event_ask::ask::Finding;
use rules_client::Check;
use rules_node::Answer;
use rules_pool::{Message, Told};

// The answer to the awaited message, if one is awaited.
pub fn to_awaited(m: Message, number: u64, a: Answer) -> Option<Event>
    ensures { result ≡ to_awaited m number a }
{
    if client_state::state::is_nothing(m) {
        return None;
    }
    Some(Event::Answer(number, crate::post::reply_of(a)))
}

// What the lowest due member found at a map check, if anybody is due.
pub fn to_check(k: Check, f: Finding) -> Option<Event>
    ensures { result ≡ to_check k f }
{
    if k.due == 0 {
        return None;
    }
    Some(crate::delivery::check_event(k, crate::delivery::check_asked(k), f))
}

// The messages that are not awaited go to their nodes where auto is on.
pub fn told_if(auto: bool, t: Told) -> Told
    ensures { result ≡ told_if auto t }
{
    if auto { t } else { Told::Nothing }
}
