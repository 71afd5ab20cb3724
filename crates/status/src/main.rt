// A member's row of a map file as block status descriptors, or descriptors back as a row.
#![tactic(auto)]

fn main(rt: HostRuntime) {
    let mut map = [0u8; 8193];
    let mut bytes = [0u8; 32776];
    let mut row = [0u8; 512];
    status_tool::run(
        &rt,
        &mut rt.stdin(),
        &rt.stderr(),
        &mut map,
        &mut bytes,
        &mut row,
    );
}
