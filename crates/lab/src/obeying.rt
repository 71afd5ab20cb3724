// What a command does to the lab, and what there is to say of it.
use audit_record::journal::Journal;
use event::{Event, Question};
use event_ask::ask::Finding;
use lab_deliver::delivery::Places;
use lab_deliver::post::Errand;
use lab_form::{Command, Which};
use lab_places::Bench;
use lab_say_line::Said;
use lab_state::Lab;
use rules_node::Answer;
use rules_pool::Told;

// The nodes and the maps, the client with what the lab knows beside it, and the log of the client's events.
#[derive(Clone, Copy)]
pub struct Desk {
    pub bench: Bench,
    pub lab: Lab,
    pub log: Journal,
}

impl Desk {
    pub(crate) fn new() -> Desk {
        Desk {
            bench: Bench::new(4096),
            lab: Lab::fresh(false, 4096),
            log: audit_record::journal::fresh(),
        }
    }

    // The nodes do what is asked of them, or the client has its event; any other line sets the lab up, or looks at it.
    pub(crate) fn obey(&mut self, c: Command) -> Said {
        match c {
            Command::Passed => Said::Nothing,
            Command::Unreadable => Said::Unreadable,
            Command::Client(e) => self.client_event(e),
            Command::Node(n, e) => self.node_said(n, Errand::Event(n, e)),
            Command::Take(n, m) => self.node_said(n, Errand::Map(m, n, false)),
            Command::Deliver => self.deliver(),
            Command::Ask(n, q) => self.asked_said(n, q),
            Command::DeliverCheck => self.deliver_check(),
            Command::Row(w, m) => Said::Row(w, m),
            Command::Look => Said::Look,
            Command::LookNode(n) => Said::LookNode(n),
            Command::Record => Said::Record(self.log.last),
            _ => {
                self.arrange(c);
                Said::Done
            }
        }
    }

    fn run(&mut self, errand: Option<Errand>) -> Answer {
        let mut places = Places {
            nodes: &mut self.bench.nodes,
            maps: &mut self.bench.maps,
            stagings: &mut self.bench.stagings,
        };
        lab_deliver::delivery::run(errand, self.lab.cut, self.lab.lent, &mut places)
    }

    fn tell(&mut self, told: Told) {
        let mut places = Places {
            nodes: &mut self.bench.nodes,
            maps: &mut self.bench.maps,
            stagings: &mut self.bench.stagings,
        };
        lab_deliver::delivery::tell_all(told, self.lab.lent, &mut places);
    }

    fn ask(&self, n: u64, q: Question) -> Finding {
        let b = &self.bench;
        lab_deliver::delivery::ask(n, q, self.lab.lent, &b.nodes, &b.maps, &b.stagings)
    }

    fn node_said(&mut self, n: u64, errand: Errand) -> Said {
        match self.run(Some(errand)) {
            Answer::Refused(why) => Said::Refused(why),
            _ => Said::Node(n),
        }
    }

    fn asked_said(&self, n: u64, q: Question) -> Said {
        match self.ask(n, q) {
            Finding::Refused(why) => Said::Refused(why),
            Finding::Empty(empty) => Said::Asked(n, empty),
            Finding::Next(found) => Said::Next(n, found),
        }
    }

    // The awaited message goes to its node, and the answer to the client.
    fn deliver(&mut self) -> Said {
        let m = self.lab.awaited;
        let a = self.run(lab_deliver::post::errand_of(m));
        self.heard(lab_deliver::heard::to_awaited(m, self.lab.number as u64, a))
    }

    fn deliver_check(&mut self) -> Said {
        let k = self.lab.client.check;
        let f = self.ask(lab_deliver::delivery::check_asked(k), Question::MapCheck);
        self.heard(lab_deliver::heard::to_check(k, f))
    }

    // What the client hears is its event.
    fn heard(&mut self, e: Option<Event>) -> Said {
        match e {
            Some(e) => self.client_event(e),
            None => Said::Idle,
        }
    }

    // The client's event; the messages that are not awaited go to their nodes where auto is on.
    fn client_event(&mut self, e: Event) -> Said {
        let Lab {
            client,
            lent,
            auto,
            ..
        } = self.lab;
        let b = &mut self.bench;
        let out = lab_lend::client_event::client_event(client, lent, e, &mut b.own, &b.maps);
        self.log = audit_record::journal::enter(self.log, e, out.answer, out.client.pool.roster);
        match out.answer {
            rules_pool::Answer::Refused(why) => Said::Refused(why),
            rules_pool::Answer::Done(sent) => {
                self.lab = self.lab.after(out.client, sent.awaited, sent.number);
                self.tell(lab_deliver::heard::told_if(auto, sent.told));
                Said::Client(sent)
            }
        }
    }

    // A line that sets the lab up. A new pool's log is empty; a byte in a node's map: the six words of its row are made true of it.
    fn arrange(&mut self, c: Command) {
        let b = &mut self.bench;
        lab_places::arrange(c, &mut b.nodes);
        self.lab = self.lab.arrange(c);
        match c {
            Command::Pool(_, _) => {
                lab_set::arranging::zero_all(&mut b.own, &mut b.maps, &mut b.stagings);
                self.log = audit_record::journal::fresh();
            }
            Command::Byte(w, i, v) => {
                lab_set::arranging::store(w, i, v, &mut b.own, &mut b.maps, &mut b.stagings);
                if let Which::Node(n) = w {
                    lab_set::truing::true_row(n, i / 512, &mut b.nodes, &b.maps);
                }
            }
            _ => {}
        }
    }
}
