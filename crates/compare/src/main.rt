// Two dumps compared: first.map and second.map in, their differences out.
#![tactic(auto)]

use std::io;

fn main(rt: HostRuntime) -> io::Result<()> {
    let mut first = [0u8; 8193];
    let mut second = [0u8; 8193];
    let mut out = [0u8; 40960];
    compare_tool::run(&rt, &rt.stderr(), &mut first, &mut second, &mut out)
}
