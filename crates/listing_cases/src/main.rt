#![tactic(auto)]

// Prints the listings of the areas in data/ and of two made here, each under its name.
use issued::issued_book::IssuedBook;
use report::{LIMIT, listed};
use std::alloc::{AllocError, Global};
use std::{fs, io};

// A number in front is that of the refusal to come.
const NAMES: [&str; 18] = [
    "aimidb",
    "stdidc",
    "acftb",
    "acftb-eo",
    "mixed",
    "unknown-binary",
    "empty",
    "2-short-header",
    "2-length-past-end",
    "3-bad-tag",
    "4-not-digits",
    "4-zero",
    "4-too-large",
    "5-bad-month",
    "5-targets-without-sar",
    "6-ends-inside-field",
    "6-ends-before-field",
    "7-past-done",
];

// The longest area that a listing takes in: one record.
fn longest(heap: Global) -> Result<Vec<u8>, AllocError> {
    let mut bytes = b"HELLO 65525".to_vec(heap)?;
    bytes.resize(LIMIT, b'x')?;
    Ok(bytes)
}

fn show(rt: &HostRuntime, name: &str, bytes: &[u8]) -> io::Result<()> {
    println!(rt; "# {name}")?;
    rt.print(listed(rt.alloc(), &IssuedBook, bytes)?)
}

fn main(rt: HostRuntime) -> io::Result<()> {
    let heap = rt.alloc();
    for name in &NAMES {
        let bytes = fs::read(&rt, format!(in heap; "{name}.area")?)?;
        show(&rt, name, bytes.as_slice())?;
    }
    let mut bytes = longest(heap)?;
    show(&rt, "longest", bytes.as_slice())?;
    bytes.push(b'x')?;
    show(&rt, "1-too-long", bytes.as_slice())
}
