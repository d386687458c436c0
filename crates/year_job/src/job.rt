// The job by its four words, and on packets that are there already.
use crate::report::Report;
use crate::{files, sealing, secrets};
use channel::{Instance, Secrets};
use std::rt::Files;
use wrong::file::Input;
use year_text::Found;

// Lake or river, and the names of three files.
#[derive(Clone, Copy)]
pub struct Words<'a> {
    pub instance: &'a [u8],
    pub dips: &'a [u8],
    pub key: &'a [u8],
    pub nonce: &'a [u8],
}

// `None` where nothing was sealed, and why was told. All three files are read before any is looked into, so that each that cannot be read is told.
fn run_with<L: Instance>(
    rt: &(impl Files + Print),
    errors: &impl Print,
    words: Words<'_>,
) -> Option<()> {
    let mut dips = [0; files::DIPS];
    let mut key = [0; files::KEY];
    let mut nonce = [0; files::NONCE];
    let dips = files::load(rt, errors, words.dips, &mut dips, Input::Dips);
    let key = files::load(rt, errors, words.key, &mut key, Input::Key);
    let nonce = files::load(rt, errors, words.nonce, &mut nonce, Input::Nonce);
    let (dips, key, nonce) = (dips?, key?, nonce?);
    let secrets = secrets::usable::<L>(errors, key, nonce)?;
    sealing::run::<L>(Report::new(rt, errors), secrets, dips)
}

// The table goes to standard output, and what is wrong to `errors`.
pub fn run_on(rt: &(impl Files + Print), errors: &impl Print, words: Words<'_>) {
    // A match on the word, which the user gives: each arm is the same generic job at its type.
    let sealed = match words.instance {
        b"lake" => run_with::<[u64; 25]>(rt, errors, words),
        b"river" => run_with::<[u32; 25]>(rt, errors, words),
        _ => return wrong::file::no_instance(errors, words.instance),
    };
    if sealed.is_none() {
        wrong::file::nothing(errors);
    }
}

// The job on a year's packets, whose headers stand and whose readings may be any bytes, as a program that does not check them might seal.
pub fn run_packets<L: Instance>(
    output: &impl Print,
    errors: &impl Print,
    secrets: Secrets<'_>,
    found: Found<'_>,
) {
    if sealing::send::<L>(Report::new(output, errors), secrets, found).is_none() {
        wrong::file::nothing(errors);
    }
}
