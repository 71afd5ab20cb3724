// The client's messages as events of their nodes, and a node's answer as the client's.
ghost use Rattle.std.specs.Prelude.{◌≡◌};
ghost use Rattle.lab_deliver.specs.Post.{told_to, errand_of, reply_of};

use event::NodeEvent;
use map_numbers::sets::has;
use rules_base::Op;
use rules_node::Answer;
use rules_pool::{Message, Reply, Told};

// What node i gets of the messages that are not awaited, one event and then another. MAP_CHECK is none of its events: the lab delivers it by a command of its own.
pub fn told_to(t: Told, i: u64) -> (Option<NodeEvent>, Option<NodeEvent>)
    ensures { result ≡ told_to t i }
{
    match t {
        Told::Nothing | Told::Checks(_, _) => (None, None),
        Told::Marks(set, chunk, list, version) => {
            (
                has(set, i).then_some(NodeEvent::Write(chunk, list, version)),
                None,
            )
        }
        Told::Clears(set, member, chunk) => {
            (
                has(set, i).then_some(NodeEvent::Synced(member, chunk)),
                None,
            )
        }
        Told::Infos(set, op, member) => {
            (has(set, i).then_some(NodeEvent::PoolInfo(op, member)), None)
        }
        Told::Disable(to) => ((to == i).then_some(NodeEvent::MapDisable), None),
        Told::Off(to) => ((to == i).then_some(NodeEvent::Enable0), None),
        Told::Extended(others, normals, member, version) => (
            has(others, i).then_some(NodeEvent::PoolInfo(Op::AddCreate, member)),
            has(normals, i).then_some(NodeEvent::Fill(member, version)),
        ),
    }
}

// What is asked of the nodes. Event: of one node. Map: one node's map, part by part, to another; and whether the first gives each part.
#[derive(Clone, Copy)]
pub enum Errand {
    Event(u64, NodeEvent),
    Map(u64, u64, bool),
}

// What the awaited message asks, if one is awaited.
pub fn errand_of(m: Message) -> Option<Errand>
    ensures { result ≡ errand_of m }
{
    match m {
        Message::Nothing => None,
        Message::GetVersion(to) => Some(Errand::Event(to, NodeEvent::MapGetVer)),
        Message::Ready(to, keep) => Some(Errand::Event(to, NodeEvent::MapReady(keep))),
        Message::Send(to, receiver) => Some(Errand::Map(to, receiver, true)),
        Message::Done(to, enable, version, set) => {
            Some(Errand::Event(to, NodeEvent::MapDone(enable, version, set)))
        }
        Message::LastIo(to, chosen) => Some(Errand::Event(to, NodeEvent::LastIo(chosen))),
        Message::Enable(to, version, set) => {
            Some(Errand::Event(to, NodeEvent::Enable1(version, set)))
        }
        Message::Leave(to, mode) => {
            Some(Errand::Event(to, NodeEvent::Leave(client_state::state::is_delete(mode))))
        }
        Message::Info(to, op, member) => Some(Errand::Event(to, NodeEvent::PoolInfo(op, member))),
    }
}

// What the node's answer says to the client.
pub fn reply_of(a: Answer) -> Reply
    ensures { result ≡ reply_of a }
{
    match a {
        Answer::Refused(_) => Reply::Failed,
        Answer::Done => Reply::Good(None),
        Answer::Version(v) => Reply::Good(Some(v)),
    }
}
