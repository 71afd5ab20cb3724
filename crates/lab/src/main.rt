// A history from standard input, its answers on standard output: one line for each command.
#![tactic(auto)]

pub mod obeying;

ghost use Rattle.std.specs.Prelude.{◌≡◌};
ghost use Rattle.text_bytes.specs.Ink.{ink};
ghost use Rattle.lab_say_line.specs.Lines.{line_in, row_in};

use crate::obeying::Desk;
use lab_form::Which;
use lab_places::Bench;
use lab_say_line::Said;
use rules_client::Check;
use rules_node::Node;
use rules_pool::Pool;
use std::io;
use std::io::{Print, Read};
use text_bytes::page::Page;
use text_words::fetching::{Cur, Got};

// Where a run stands: the lab, the reading with its buffer and the line so far, and the output, of which the first bytes up to at are not written yet.
#[derive(Clone, Copy)]
pub struct Stand {
    pub desk: Desk,
    pub cur: Cur,
    pub buf: [u8; 4096],
    pub line: [u8; 256],
    pub out: [u8; 32768],
    pub at: usize,
}

fn main(rt: HostRuntime) -> io::Result<()> {
    let mut stand = Stand {
        desk: Desk::new(),
        cur: text_words::fetching::start(),
        buf: [0; 4096],
        line: [0; 256],
        out: [0; 32768],
        at: 0,
    };
    stand.run(&rt, &mut rt.stdin())
}

impl Stand {
    // From the first line of standard input to its end. The turns are counted so that the loop ends whatever is read; no run uses them up.
    fn run(&mut self, rt: &impl Print, input: &mut impl Read) -> io::Result<()> {
        for _ in 0..u64::MAX {
            self.take(rt, input)?;
            match self.cur.kind {
                Got::Part => {}
                Got::Whole => {
                    self.answer(rt)?;
                    self.cur = text_words::fetching::fresh(self.cur);
                }
                Got::End => {
                    self.answer(rt)?;
                    return self.flush(rt);
                }
            }
        }
        Ok(())
    }

    // More of the line is taken. What is answered so far is written before more is read: whoever waits for it may send the next line only then.
    fn take(&mut self, rt: &impl Print, input: &mut impl Read) -> io::Result<()> {
        if self.cur.end <= self.cur.pos {
            self.flush(rt)?;
        }
        self.cur = text_words::fetching::fetch(input, self.cur, &mut self.buf, &mut self.line)?;
        Ok(())
    }

    // The line's command obeyed, and what is said of it written: of a row that is looked at, its own line.
    fn answer(&mut self, rt: &impl Print) -> io::Result<()> {
        let said = self
            .desk
            .obey(lab_command::reading::to_command(self.cur.len, &self.line));
        self.room(rt)?;
        let Desk { bench, lab, .. } = &self.desk;
        let (pool, check) = (lab.client.pool, lab.client.check);
        let node = lab_places::node_in(number_of(said), &bench.nodes).node;
        self.at = said_line(self.at, said, pool, check, node, &mut self.out);
        if let Said::Row(w, m) = said {
            self.at = row_line(self.at, w, m, bench, &mut self.out);
        }
        Ok(())
    }

    // No line has more than 20,490 bytes, a row's the most (the laws of sayrow, sayclient, saynode and saylab); of 32,768 so much and a newline is free before each
    // command, so no answer is cut.
    fn room(&mut self, rt: &impl Print) -> io::Result<()> {
        if 12277 < self.at {
            return self.flush(rt);
        }
        Ok(())
    }

    // Writes what stands in out up to at.
    fn flush(&mut self, rt: &impl Print) -> io::Result<()> {
        if self.at <= self.out.len() {
            rt.write_all(&self.out[..self.at])?;
        }
        self.at = 0;
        Ok(())
    }
}

// The node that a command went to or looks at; the first where there is none, since every line is written beside some node.
fn number_of(s: Said) -> u64 {
    match s {
        Said::Node(n) | Said::Asked(n, _) | Said::Next(n, _) | Said::LookNode(n) => n,
        _ => 0,
    }
}

// Puts what is said into out, at the place `at`, and gives the next place.
fn said_line(at: usize, said: Said, pool: Pool, check: Check, node: Node, out: &mut [u8]) -> usize
    ensures { ink out.new result ≡ line_in (ink out.old at) said pool check node }
{
    let mut page = Page::new(out, at);
    lab_say_line::put_line(&mut page, said, pool, check, node);
    page.at()
}

// The same of member m's row in one of the maps.
fn row_line(at: usize, w: Which, m: u64, bench: &Bench, out: &mut [u8]) -> usize
    ensures { ink out.new result ≡ row_in (ink out.old at) w m bench.now.own bench.now.maps bench.now.stagings }
{
    let mut page = Page::new(out, at);
    lab_say_line::put_row(&mut page, w, m, &bench.own, &bench.maps, &bench.stagings);
    page.at()
}
