// Messages to their nodes: a node's event, those that are not awaited, a map in parts, the awaited message, and questions.
// lent and places go side by side: lent is the lab's, which lines change; the places are lent as a whole, to be written.
ghost use Rattle.std.specs.Prelude.{◌≡◌};
ghost use Rattle.lab_deliver.specs.Delivery.{whole, SameLoans, answer_at, ran_at, told_at, told_below, outcome, length_at, accepted as Delivery·accepted, passed_at, goes_on, map_passed, ran_by, found_at, found_empty, check_asked, check_answer};

use crate::post::Errand;
use event::{Event, NodeEvent, Question};
use event_ask::ask::Finding;
use event_ask::lending::Lent;
use node::StorageNode;
use rules_base::Refusal;
use rules_client::Check;
use rules_node::Answer;
use rules_pool::Told;

// The nodes, each in its place, and their maps and staging maps, which stand one after another: lent, each of any length.
#[derive(Drop)]
pub struct Places<'a> {
    pub nodes: &'a mut [StorageNode],
    pub maps: &'a mut [u8],
    pub stagings: &'a mut [u8],
}

// The event of node n.
#[tactic(auto, unfolding(crate::specs::Delivery::ran_at))]
fn node_event(n: u64, e: NodeEvent, lent: Lent, places: &mut Places) -> Answer
    ensures value { result ≡ answer_at n e lent (whole places.old) }
    ensures after { whole places.new ≡ ran_at n e lent (whole places.old) }
    ensures loans { SameLoans places.old places.new }
{
    if 15 < n {
        return Answer::Refused(Refusal::BadId.number());
    }
    // Lent once for the look and the put: a look through the field itself would leave the proof its length alone.
    let nodes = &mut *places.nodes;
    let was = lab_places::node_in(n, nodes);
    let out = lab_lend::node_event::node_event(was, n, lent, e, places.maps, places.stagings);
    lab_places::put(n, out.node, nodes);
    out.answer
}

// What node i gets, if anything; nobody waits for its answer.
fn tell(e: Option<NodeEvent>, i: u64, lent: Lent, places: &mut Places)
    ensures after { whole places.new ≡ told_at e i lent (whole places.old) }
    ensures loans { SameLoans places.old places.new }
{
    if let Some(e) = e {
        node_event(i, e, lent, places);
    }
}

// Each message that is not awaited goes to its node.
pub fn tell_all(t: Told, lent: Lent, places: &mut Places)
    ensures after { whole places.new ≡ told_below t 16 lent (whole places.old) }
    ensures loans { SameLoans places.old places.new }
{
    for i in 0..map_numbers::refusals::MEMBERS {
        let (first, second) = crate::post::told_to(t, i);
        tell(first, i, lent, places);
        tell(second, i, lent, places);
    }
}

// A map on its way in parts, each as long as cut says, the last one shorter: whether the source gives each, and who takes it.
#[derive(Clone, Copy)]
pub struct Way {
    pub given: bool,
    pub source: u64,
    pub receiver: u64,
    pub cut: u64,
}

// How long the part at the offset is.
fn length_at(cut: u64, offset: u64) -> u64
    ensures { result ≡ length_at cut offset }
{
    cut.min(8192u64.saturating_sub(offset))
}

fn accepted(a: Answer) -> bool
    ensures { result ≡ Delivery·accepted a }
{
    !matches!(a, Answer::Refused(_))
}

// Where it is given, the source gives the part; unless it refuses, the receiver takes it.
#[tactic(auto, unfolding(crate::specs::Delivery::passed_at, crate::specs::Delivery::sent_after))]
fn pass_part(w: Way, offset: u64, lent: Lent, places: &mut Places) -> Answer
    ensures after { outcome result (whole places.new) ≡ passed_at w offset lent (whole places.old) }
    ensures loans { SameLoans places.old places.new }
{
    let n = length_at(w.cut, offset);
    if w.given {
        let a = node_event(w.source, NodeEvent::GivePart(offset, n), lent, places);
        if !accepted(a) {
            return a;
        }
    }
    node_event(
        w.receiver,
        NodeEvent::TakePart(offset, n, w.source),
        lent,
        places,
    )
}

// Whether another part comes.
fn goes_on(a: Answer, offset: u64) -> bool
    ensures { result ≡ goes_on a offset }
{
    accepted(a) && offset < 8192
}

// The parts from offset 0 on, until all are taken or one is refused. A part has at least one byte, so there are no more than 8,192.
fn pass_map(w: Way, lent: Lent, places: &mut Places) -> Answer
    ensures after { outcome result (whole places.new) ≡ map_passed w lent (whole places.old) }
    ensures loans { SameLoans places.old places.new }
{
    let mut a = Answer::Done;
    let mut offset: u64 = 0;
    for part in 0..map_numbers::refusals::MAP_BYTES {
        if !goes_on(a, offset) {
            break;
        }
        a = pass_part(w, offset, lent, places);
        offset += length_at(w.cut, offset);
    }
    a
}

// What is asked of the nodes, if anything, its maps in parts as long as cut says; what is answered last.
pub fn run(errand: Option<Errand>, cut: u64, lent: Lent, places: &mut Places) -> Answer
    ensures after { outcome result (whole places.new) ≡ ran_by errand cut lent (whole places.old) }
    ensures loans { SameLoans places.old places.new }
{
    match errand {
        None => Answer::Refused(Refusal::BadId.number()),
        Some(Errand::Event(n, event)) => node_event(n, event, lent, places),
        Some(Errand::Map(source, receiver, given)) => {
            let w = Way {
                given,
                source,
                receiver,
                cut,
            };
            pass_map(w, lent, places)
        }
    }
}

// What node n answers to a question, the nodes and their maps only read; nothing changes.
#[tactic(auto, unfolding(crate::specs::Delivery::found_at))]
pub fn ask(
    n: u64,
    q: Question,
    lent: Lent,
    nodes: &[StorageNode],
    maps: &[u8],
    stagings: &[u8],
) -> Finding
    ensures { result ≡ found_at n q lent nodes.now maps.now stagings.now }
{
    if 15 < n {
        return Finding::Refused(Refusal::BadId.number());
    }
    event_ask::ask::ask(lab_places::node_in(n, nodes), n, lent, q, maps, stagings)
}

fn found_empty(f: Finding) -> bool
    ensures { result ≡ found_empty f }
{
    matches!(f, Finding::Empty(true))
}

// Whom a map check asks: the lowest due member; 16, no node, where nobody is due, as of any empty set.
pub fn check_asked(k: Check) -> u64
    ensures { result ≡ check_asked k }
{
    map_numbers::sets::lowest(u64::from(k.due))
}

// What the client gets of member m's finding, under the last tick's number.
pub fn check_event(k: Check, m: u64, f: Finding) -> Event
    ensures { result ≡ check_answer k m f }
{
    Event::CheckAnswer(u64::from(k.tick), m, found_empty(f))
}
