// The lines that are events of the client or of a node.
ghost use Rattle.std.specs.Prelude.{◌≡◌};
ghost use Rattle.lab_command.specs.Events.{client_events, check_events, search_events, whole_events, store_events, service_events, transfer_events};

use event::{Event, NodeEvent, Question};
use lab_form::Head::{Node, Plain};
use lab_form::{Command, Form};
use text_words::names::Name;

// The client's events, all but four and those of map check.
#[tactic(auto, unfolding(crate::specs::Events::client_events))]
pub fn client_events(f: Form) -> Option<Command>
    ensures { result ≡ client_events f.head f }
{
    let [_, x1, x2, x3, ..] = f.x;
    Some(Command::Client(match (f.head, f.count) {
        (Plain(Name::JoinCreate), 2) => Event::JoinCreate(x1),
        (Plain(Name::JoinAssemble), 4) => Event::JoinAssemble(x1, x2, x3),
        (Plain(Name::Enable), 2) => Event::Enable(x1),
        (Plain(Name::Maintenance), 2) => Event::Maintenance(x1),
        (Plain(Name::LinkDown), 2) => Event::LinkDown(x1),
        (Plain(Name::StoreCheck), 2) => Event::StoreCheck(x1),
        (Plain(Name::Rejoin), 2) => Event::Rejoin(x1),
        (Plain(Name::Try), 1) => Event::Try,
        (Plain(Name::Extend), 1) => Event::Extend,
        _ => return None,
    }))
}

// Map check: the client's events, the node's, and what the lab delivers.
#[tactic(auto, unfolding(crate::specs::Events::check_events))]
pub fn check_events(f: Form) -> Option<Command>
    ensures { result ≡ check_events f.head f }
{
    let [_, x1, x2, x3, ..] = f.x;
    Some(match (f.head, f.count) {
        (Plain(Name::Tick), 1) => Command::Client(Event::Tick),
        (Plain(Name::CheckAnswer), 4) if x3 < 2 => Command::Client(Event::CheckAnswer(
            x1,
            x2,
            x3 == 1,
        )),
        (Node(Name::MapCheck), 3) => Command::Ask(x1, Question::MapCheck),
        (Plain(Name::DeliverCheck), 1) => Command::DeliverCheck,
        _ => return None,
    })
}

// The next dirty chunk: a member, from which chunk on.
#[tactic(auto, unfolding(crate::specs::Events::search_events))]
pub fn search_events(f: Form) -> Option<Command>
    ensures { result ≡ search_events f.head f }
{
    let [_, x1, _, x3, x4, ..] = f.x;
    Some(match (f.head, f.count) {
        (Node(Name::Next), 5) => Command::Ask(x1, Question::Next(x3, x4)),
        _ => return None,
    })
}

// The other four, and what concerns the lab as a whole.
#[tactic(auto, unfolding(crate::specs::Events::whole_events))]
pub fn whole_events(f: Form) -> Option<Command>
    ensures { result ≡ whole_events f.head f }
{
    let [_, x1, x2, x3, ..] = f.x;
    Some(match (f.head, f.count) {
        (Plain(Name::Remove), 3) if x2 < 2 => Command::Client(Event::Remove(
            x1,
            event_number::mode_of(x2),
        )),
        (Plain(Name::Write), 3) => Command::Client(Event::Write(x1, x2)),
        (Plain(Name::Synced), 4) if x3 < 16 => Command::Client(Event::Synced(x1, x2, x3)),
        (Plain(Name::Answer), 4) if x2 < 3 => Command::Client(Event::Answer(
            x1,
            event_number::reply_of(x2, x3),
        )),
        (Plain(Name::Pool), 3) if x1 < 2 && x2 < 65536 => Command::Pool(x1 == 1, x2),
        (Plain(Name::Auto), 2) if x1 < 2 => Command::Auto(x1 == 1),
        (Plain(Name::Deliver), 1) => Command::Deliver,
        _ => return None,
    })
}

// A node's events: register, join, leave, enable.
#[tactic(auto, unfolding(crate::specs::Events::store_events))]
pub fn store_events(f: Form) -> Option<Command>
    ensures { result ≡ store_events f.head f }
{
    let [_, x1, _, x3, x4, ..] = f.x;
    Some(Command::Node(
        x1,
        match (f.head, f.count) {
            (Node(Name::RegisterCreate), 3) => NodeEvent::RegisterCreate,
            (Node(Name::RegisterAdd), 5) => NodeEvent::RegisterAdd(x3, x4),
            (Node(Name::Unregister), 4) if x3 < 2 => NodeEvent::Unregister(x3 == 1),
            (Node(Name::JoinCreate), 4) => NodeEvent::JoinCreate(x3),
            (Node(Name::JoinAssemble), 3) => NodeEvent::JoinAssemble,
            (Node(Name::Leave), 4) if x3 < 2 => NodeEvent::Leave(x3 == 1),
            (Node(Name::Enable1), 5) => NodeEvent::Enable1(x3, x4),
            (Node(Name::Enable0), 3) => NodeEvent::Enable0,
            _ => return None,
        },
    ))
}

// A node's events: fault, write, synced, POOL_INFO, LAST_IO, fill.
#[tactic(auto, unfolding(crate::specs::Events::service_events))]
pub fn service_events(f: Form) -> Option<Command>
    ensures { result ≡ service_events f.head f }
{
    let [_, x1, _, x3, x4, x5, ..] = f.x;
    Some(Command::Node(
        x1,
        match (f.head, f.count) {
            (Node(Name::Fault), 3) => NodeEvent::Fault,
            (Node(Name::Write), 6) => NodeEvent::Write(x3, x4, x5),
            (Node(Name::Synced), 5) => NodeEvent::Synced(x3, x4),
            (Node(Name::PoolInfo), 5) if x3 < 4 => NodeEvent::PoolInfo(event_number::op_of(x3), x4),
            (Node(Name::LastIo), 4) => NodeEvent::LastIo(x3),
            (Node(Name::Fill), 5) => NodeEvent::Fill(x3, x4),
            _ => return None,
        },
    ))
}

// A node's events: the map's way. A whole map is taken part by part.
#[tactic(auto, unfolding(crate::specs::Events::transfer_events))]
pub fn transfer_events(f: Form) -> Option<Command>
    ensures { result ≡ transfer_events f.head f }
{
    let [_, x1, _, x3, x4, x5, ..] = f.x;
    Some(match (f.head, f.count) {
        (Node(Name::MapReady), 4) if x3 < 2 => Command::Node(x1, NodeEvent::MapReady(x3 == 1)),
        (Node(Name::GivePart), 5) => Command::Node(x1, NodeEvent::GivePart(x3, x4)),
        (Node(Name::TakePart), 6) if x4 < 2049 && x5 < 16 => Command::Node(
            x1,
            NodeEvent::TakePart(x3, x4, x5),
        ),
        (Node(Name::Take), 4) if x3 < 16 => Command::Take(x1, x3),
        (Node(Name::MapDone), 6) if x3 < 2 => Command::Node(
            x1,
            NodeEvent::MapDone(x3 == 1, x4, x5),
        ),
        (Node(Name::MapDisable), 3) => Command::Node(x1, NodeEvent::MapDisable),
        (Node(Name::MapGetVer), 3) => Command::Node(x1, NodeEvent::MapGetVer),
        _ => return None,
    })
}
