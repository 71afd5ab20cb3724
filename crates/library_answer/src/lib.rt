// A client's answer as 16 words. 0: 1 where the event was accepted. 1: the refusal's number. 2 to 4: the outcome. 5 to 9: the messages that are not awaited.
// 10 to 14: the awaited message. 15: its number.
#![tactic(auto)]

ghost use Rattle.std.specs.Prelude.{◌≡◌};
ghost use Rattle.library_answer.specs.Words.{outcome_words, told_words, message_words, sent_words, answer_words};

use rules_pool::{Answer, Message, Outcome, Sent, Told};

fn outcome_words(o: Outcome) -> [u64; 3]
    ensures { result ≡ outcome_words o }
{
    match o {
        Outcome::Plain => [0, 0, 0],
        Outcome::Taken(n) => [1, n, 0],
        Outcome::Written(acked, list) => [2, u64::from(acked), list],
        Outcome::Picked(id) => [3, id, 0],
    }
}

fn told_words(t: Told) -> [u64; 5]
    ensures { result ≡ told_words t }
{
    match t {
        Told::Nothing => [0, 0, 0, 0, 0],
        Told::Marks(set, chunk, list, version) => [1, set, chunk, list, version],
        Told::Clears(set, member, chunk) => [2, set, member, chunk, 0],
        Told::Infos(set, op, member) => [3, set, event_number::op_number(op), member, 0],
        Told::Disable(to) => [4, to, 0, 0, 0],
        Told::Off(to) => [5, to, 0, 0, 0],
        Told::Extended(others, normals, member, version) => [6, others, normals, member, version],
        Told::Checks(set, tick) => [7, set, tick, 0, 0],
    }
}

fn message_words(m: Message) -> [u64; 5]
    ensures { result ≡ message_words m }
{
    match m {
        Message::Nothing => [0, 0, 0, 0, 0],
        Message::GetVersion(to) => [1, to, 0, 0, 0],
        Message::Ready(to, keep) => [2, to, u64::from(keep), 0, 0],
        Message::Send(to, receiver) => [3, to, receiver, 0, 0],
        Message::Done(to, enable, version, members) => [4, to, u64::from(enable), version, members],
        Message::LastIo(to, chosen) => [5, to, chosen, 0, 0],
        Message::Enable(to, version, members) => [6, to, version, members, 0],
        Message::Leave(to, mode) => [7, to, event_number::mode_number(mode), 0, 0],
        Message::Info(to, op, member) => [8, to, event_number::op_number(op), member, 0],
    }
}

#[tactic(auto, unfolding(crate::specs::Words::sent_words))]
fn sent_words(s: Sent) -> [u64; 16]
    ensures { result ≡ sent_words s }
{
    let o = outcome_words(s.outcome);
    let t = told_words(s.told);
    let m = message_words(s.awaited);
    let n = u64::from(s.number);
    // Word by word: three copies into one array did not prove in short.
    [
        1, 0, o[0], o[1], o[2], t[0], t[1], t[2], t[3], t[4], m[0], m[1], m[2], m[3], m[4], n,
    ]
}

pub fn answer_words(a: Answer) -> [u64; 16]
    ensures { result ≡ answer_words a }
{
    match a {
        Answer::Refused(n) => [0, n, 0, 0, 0, 0, 0, 0, 0, 0, 0, 0, 0, 0, 0, 0],
        Answer::Done(s) => sent_words(s),
    }
}
