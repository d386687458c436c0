// The main job, run in the gate on what stops it before it seals, on what it takes though it looks odd, and on months that are opened
// and cannot be read. Each case is named, then what the job says; what is wrong is sent to standard output here, so that it is held to
// what is stored, but for the first two cases, which show that the job itself sends none of it there.
#![tactic(auto)]

mod unread;

use std::rt::{Env, Files};
use year_job::Words;

// A case: its title, then the job's four words; an array, since a struct would name its five fields again in each row of the table below.
type Case = [&'static str; 5];

const KEY: &str = "sample.key";

const NONCE: &str = "sample.nonce";

const CASES: [Case; 23] = [
    ["neither lake nor river", "sea", "dips.txt", KEY, NONCE],
    ["a file that is not there", "lake", "absent.txt", KEY, NONCE],
    ["a folder", "lake", ".", KEY, NONCE],
    [
        "a file of dips that is too long",
        "lake",
        "long.txt",
        KEY,
        NONCE,
    ],
    ["no month in the file", "lake", "empty.txt", KEY, NONCE],
    ["a byte order mark", "lake", "mark.txt", KEY, NONCE],
    [
        "a byte order mark of UTF-16",
        "lake",
        "wide.txt",
        KEY,
        NONCE,
    ],
    ["a key of 15 bytes", "lake", "dips.txt", "short.key", NONCE],
    [
        "a key of 32 bytes and a line end",
        "river",
        "dips.txt",
        "long.key",
        NONCE,
    ],
    [
        "a key file that is too long",
        "lake",
        "dips.txt",
        "long.txt",
        NONCE,
    ],
    [
        "a nonce of 1025 bytes",
        "river",
        "dips.txt",
        KEY,
        "long.nonce",
    ],
    [
        "a nonce file that is too long",
        "river",
        "dips.txt",
        KEY,
        "long.txt",
    ],
    ["lines that are no months", "lake", "bad.txt", KEY, NONCE],
    [
        "lines that are not of one borehole's year",
        "river",
        "mixed.txt",
        KEY,
        NONCE,
    ],
    ["a thirteenth month", "lake", "thirteen.txt", KEY, NONCE],
    [
        "a key of 16 bytes and a line end",
        "lake",
        "dips.txt",
        "ended.key",
        NONCE,
    ],
    [
        "a well named #3, and a comment",
        "lake",
        "third.txt",
        KEY,
        NONCE,
    ],
    [
        "wells may be named #, and lines may end in CR LF",
        "river",
        "hash.txt",
        KEY,
        NONCE,
    ],
    ["a well read daily", "river", "daily.txt", KEY, NONCE],
    [
        "a well that was given a new name",
        "lake",
        "renamed.txt",
        KEY,
        NONCE,
    ],
    [
        "and one that was given several",
        "river",
        "names.txt",
        KEY,
        NONCE,
    ],
    ["a name a month", "lake", "twelve.txt", KEY, NONCE],
    [
        "a month left out as comments are not",
        "lake",
        "crossed.txt",
        KEY,
        NONCE,
    ],
];

// The title is no word of the job's, so it goes to standard output in any case.
fn run(rt: &(impl Files + Print), errors: &impl Print, case: Case) {
    let [title, instance, dips, key, nonce] = case;
    let words = Words {
        instance: instance.as_bytes(),
        dips: dips.as_bytes(),
        key: key.as_bytes(),
        nonce: nonce.as_bytes(),
    };
    show::tell(rt, format_args!("-- {title}"));
    year_job::run_on(rt, errors, words);
}

fn elsewhere(rt: &(impl Files + Env + Print), errors: &impl Print) {
    show::tell(rt, "-- no arguments: told on standard error");
    year_job::run(rt, errors);
    let wrong_lines = [
        "wrong lines: told on standard error",
        "lake",
        "bad.txt",
        KEY,
        NONCE,
    ];
    run(rt, errors, wrong_lines);
}

fn main(rt: HostRuntime) {
    let errors = rt.stderr();
    elsewhere(&rt, &errors);
    for case in CASES {
        run(&rt, &rt, case);
    }
    show::tell(&rt, "-- months that were opened and cannot be read");
    unread::run(&rt);
}
