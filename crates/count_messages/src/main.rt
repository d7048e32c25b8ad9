// count_messages: reads a capture on standard input in pieces, and prints how many messages of each
// type it has, and its first fault.
#![tactic(auto)]

use examples::{Counts, count_all};
use std::io;

fn main(rt: HostRuntime) -> io::Result<()> {
    let alloc = rt.alloc();
    let mut counts = Counts::new(alloc);
    let outcome = count_all(alloc, &mut rt.reader(), &mut counts)?;
    for (message_type, number) in counts.iter() {
        println!(rt; "{message_type}: {number}")?;
    }
    if let Err(fault) = outcome {
        println!(rt; "{fault}")?;
    }
    Ok(())
}
