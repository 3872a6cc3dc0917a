#![tactic(auto)]

// Prints values of places under the names of their types, as a program that looks for a fault would.
use kind::Kind;
use kind::compound::Built;
use places::location::{Latitude, Locations, NorthSouth};
use places::place::Places;
use std::io;

fn main(rt: HostRuntime) -> io::Result<()> {
    let pole = Latitude {
        degrees: 89,
        minutes: 59,
        side: NorthSouth::South,
    };
    println!(&rt; "{pole:?}")?;
    if let Ok(location) = Built::of(Locations).read(b"1234N05643E") {
        println!(&rt; "{location:?}")?;
    }
    for spelling in [b"123456.7890N1234556.7890W", b"+12.34567890-123.45678901"] {
        if let Ok(place) = Built::of(Places).read(spelling) {
            println!(&rt; "{place:?}")?;
        }
    }
    Ok(())
}
