// Prints the checksum of the input from seed 0, and on the second stream how many microseconds it took.
#![tactic(auto)]

use std::io;
use std::io::Read;
use std::time::Instant;

fn main(rt: HostRuntime) -> io::Result<()> {
    let mut bytes = Vec::new(rt.alloc());
    let mut input = rt.stdin();
    input.read_to_end(&mut bytes)?;
    let start = Instant::now(&rt)?;
    let sum = sc32::sc32(0, bytes.as_slice());
    let took = start.elapsed(&rt)?.as_micros();
    eprintln!(rt; "{took}")?;
    println!(rt; "{sum:08X}")
}
