// The printer: reads a fleet list from standard input, and prints the coach order of all its consists.
#![tactic(auto)]

use coach_order::page::{MOST, page};
use std::io;
use std::io::{Read, Write};

fn main(rt: HostRuntime) -> io::Result<()> {
    let mut list = Vec::new(rt.alloc());
    // One byte more than a list may have shows that it is too long.
    let most = MOST as u64 + 1;
    rt.stdin().take(most).read_to_end(&mut list)?;
    let text = page(rt.alloc(), list.as_slice())?;
    rt.stdout().write_all(text.as_slice())
}
