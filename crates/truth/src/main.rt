// Reads a formula from standard input, and prints its steps, at how many versions it is yes and its graph, or why it is refused.
#![tactic(auto)]

use std::io;
use std::io::{Read, Write};

mod build;
mod report;

fn main(rt: HostRuntime) -> io::Result<()> {
    let mut input = Vec::new(rt.alloc());
    rt.stdin()
        .take(report::INPUT_LIMIT)
        .read_to_end(&mut input)?;
    let answer = report::answer(rt.alloc(), input.as_slice())?;
    rt.stdout().write_all(answer.as_slice())
}
