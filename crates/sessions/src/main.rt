// Runs sessions in the vector layout (docs/VECTORS.md) through the public calls of Lake and River and the public permutation,
// and says how many calls agreed in everything that the file tells, and how many differed.
#![tactic(auto)]

mod around;
mod run;
mod steps;

use run::{Calls, Run};
use std::rt::Files;
use std::{fs, io};
use vectors::file::{ROOM, load};

// How a file came out: what it is, and its sessions and calls.
fn report(
    rt: &(impl Files + Print),
    room: &mut [u8],
    (name, what): (&str, &str),
) -> io::Result<()> {
    let run = Run::of(load(fs::open(rt, name), room));
    println!(rt; "{what}: {run}")
}

// The Keyak team's vectors, if a user supplied some.
fn report_team(rt: &(impl Files + Print), room: &mut [u8]) -> io::Result<()> {
    let file = load(fs::open(rt, "team.txt"), room);
    if file.is_empty() {
        return println!(rt; "team vectors: 0 supplied");
    }
    println!(rt; "team vectors: {}", Run::of(file))
}

fn table(rt: &impl Print, name: &str, bits: u8, calls: Calls) -> io::Result<()> {
    println!(rt; "  {name} start: {}", calls.start)?;
    println!(rt; "  {name} wrap: {}", calls.wrap)?;
    println!(rt; "  {name} unwrap: {}", calls.unwrap)?;
    println!(rt; "  permutation of {bits}-bit lanes: {}", calls.permute)
}

// The stored sessions, with a line for each kind of call.
fn report_sessions(rt: &(impl Files + Print), room: &mut [u8]) -> io::Result<()> {
    let run = Run::of(load(fs::open(rt, "sessions.txt"), room));
    table(rt, "Lake", 64, run.lake)?;
    table(rt, "River", 32, run.river)?;
    println!(rt; "sessions: {run}")
}

fn main(rt: HostRuntime) -> io::Result<()> {
    let mut room = [0; ROOM];
    around::tell(&rt)?;
    for file in [
        ("sample.txt", "vectors of the second program"),
        ("wrong.txt", "the same with one wrong byte"),
        ("late.txt", "the last of 65,535 bytes wrong"),
        ("words.txt", "one wrong word in each line"),
        ("unsound.txt", "lines outside the layout"),
    ] {
        report(&rt, &mut room, file)?;
    }
    report_team(&rt, &mut room)?;
    report(&rt, &mut room, ("random.txt", "random sessions"))?;
    report_sessions(&rt, &mut room)
}
