// A log from standard input, a record a line; the verdict on standard output.
#![tactic(auto)]

use std::io;

fn main(rt: HostRuntime) -> io::Result<()> {
    let mut buf = [0u8; 4096];
    let mut line = [0u8; 256];
    let mut out = [0u8; 32];
    audit_tool::run(&rt, &mut rt.stdin(), &mut buf, &mut line, &mut out)
}
