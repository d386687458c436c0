// Runs the second program's readings of months (docs/VECTORS.md) through the public calls that read and write them, and says how
// many calls agreed in everything that the file tells, and how many differed.
#![tactic(auto)]

mod around;
mod calls;
mod run;

use line_text::Lines;
use std::rt::Files;
use std::{fs, io};
use vectors::file::{ROOM, load};
use vectors::tallies::Tallies;
use vectors::words::Words;

// A call, which is made and compared.
fn call<F: FnOnce(&mut Words<'_>)>(tallies: &mut Tallies, mut words: Words<'_>, step: F)
    requires { F.IsAlwaysCallable step }
{
    step(&mut words);
    tallies.call(words.ends());
}

// end CALLS: the total is to be the one counted here.
fn totals(tallies: &mut Tallies, mut words: Words<'_>) {
    words.told(tallies.calls());
    tallies.totals(words.ends());
}

// One line, by its first letter. A match on the letter, which comes from the file: there is no caller that could hand in the step.
fn take(tallies: &mut Tallies, line: &[u8]) {
    let words = Words::past_first(line);
    tallies.next_line();
    match line.first() {
        None | Some(b'#') => {}
        Some(b'r') => call(tallies, words, calls::read),
        Some(b'w') => call(tallies, words, calls::write),
        Some(b'e') => totals(tallies, words),
        Some(_) => tallies.other(false),
    }
}

fn compared(file: &[u8]) -> Tallies {
    let mut tallies = Tallies::default();
    for line in Lines::of(file) {
        take(&mut tallies, line.text);
    }
    tallies.end();
    tallies
}

fn main(rt: HostRuntime) -> io::Result<()> {
    let mut room = [0; ROOM];
    around::tell(&rt)?;
    for (name, what) in [
        ("readings.txt", "readings of the second program"),
        ("wrong_readings.txt", "one wrong word in each line"),
    ] {
        let file = load(fs::open(&rt, name), &mut room);
        println!(rt; "{what}: {}", compared(file))?;
    }
    Ok(())
}
