// Tries the dip's calls on both sides of every limit and prints what each answered, a line for each group of cases.
// What is expected stands in the cases as numbers and bytes of their own: nothing of the library makes it.
#![tactic(auto)]

mod group;
mod header;
mod readings;
mod series;

use group::Cases;
use std::io;

fn main(rt: HostRuntime) -> io::Result<()> {
    let mut cases = Cases::new(&rt);
    header::fields(&mut cases)?;
    header::lengths(&mut cases)?;
    series::pairs(&mut cases)?;
    readings::months(&mut cases)?;
    println!(rt; "all: {}", cases.tally)
}
