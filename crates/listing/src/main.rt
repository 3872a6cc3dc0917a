#![tactic(auto)]

// Reads an area from standard input and prints its listing under the empty book.
use book::empty::EmptyBook;
use report::{LIMIT, listed};
use std::io;
use std::io::Read;

fn main(rt: HostRuntime) -> io::Result<()> {
    let heap = rt.alloc();
    let mut bytes = Vec::new(heap);
    // One byte more than is taken in, so that a longer input shows.
    rt.stdin().take(LIMIT as u64 + 1).read_to_end(&mut bytes)?;
    rt.print(listed(heap, &EmptyBook, bytes.as_slice())?)
}
