// The calls of a line: its words are read, the call is made, and all that it answers and leaves is compared.
use crate::run::Run;
use decimal::LARGEST;
use dip::BadReadings;
use table::{Refusal, number_of};
use vectors::guard::Guarded;
use vectors::words::Words;

// NUMBER INDEX: where nothing is refused, both are 0.
fn answered(words: &mut Words<'_>, answer: Result<(), BadReadings>) {
    words.told(usize::from(number_of(answer.map_err(Refusal::from))));
    words.told(answer.err().map_or(0, BadReadings::index));
}

// read COUNT BYTES RUN NUMBER INDEX RUNAFTER: all numbers of the array are compared, those of the run and those around it.
pub fn read(words: &mut Words<'_>) {
    let mut room = [0; 256];
    let count = words.number(LARGEST);
    let bytes = words.given(&mut room);
    let mut run = Run::read(words);
    answered(words, dip::read_readings(count, bytes, run.lent()));
    let after = Run::read(words);
    words.expect(run == after);
}

// write COUNT RUN BYTES NUMBER INDEX BYTESAFTER
pub fn write(words: &mut Words<'_>) {
    let mut array = [0; 320];
    let count = words.number(LARGEST);
    let mut run = Run::read(words);
    let bytes = Guarded::read(words, &mut array);
    answered(words, dip::write_readings(count, run.lent(), bytes.lent));
    words.expect(bytes.is_kept());
    words.equal(bytes.lent);
}
