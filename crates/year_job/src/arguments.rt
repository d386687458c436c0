// The job by the program's arguments. They are bytes, since a file's name need not be text, and are read into rooms of the stack: the job has
// no heap that could run out.
ghost use Rattle.std.specs.Prelude.{◌≤◌, length, IfSome};

use crate::job::{self, Words};
use std::env::FillError;
use std::rt::{Env, Files};

// How long an argument may be; wrong::file says it.
const ARGUMENT: usize = 4096;

// An argument, where it fits.
fn argument<'a>(args: &impl Env, i: usize, room: &'a mut [u8]) -> Option<&'a [u8]>
    ensures { IfSome result (λ word. length word.now ≤ length room.old) }
{
    let length = args.arg(i, room).ok()?;
    Some(&room[..length])
}

// Whether there is an argument i, however long it is.
fn is_given(args: &impl Env, i: usize) -> bool {
    !matches!(args.arg(i, &mut [0; 1]), Err(FillError::NotPresent))
}

pub fn run(rt: &(impl Files + Env + Print), errors: &impl Print) {
    let mut word = [0; ARGUMENT];
    let mut dips = [0; ARGUMENT];
    let mut key = [0; ARGUMENT];
    let mut nonce = [0; ARGUMENT];
    if !is_given(rt, 4) || is_given(rt, 5) {
        return wrong::file::usage(errors);
    }
    let given = (
        argument(rt, 1, &mut word),
        argument(rt, 2, &mut dips),
        argument(rt, 3, &mut key),
        argument(rt, 4, &mut nonce),
    );
    let (Some(instance), Some(dips), Some(key), Some(nonce)) = given else {
        return wrong::file::long_argument(errors);
    };
    let words = Words {
        instance,
        dips,
        key,
        nonce,
    };
    job::run_on(rt, errors, words);
}
