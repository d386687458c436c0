// Whether the start takes key and nonce, and what is said of their files: a line end at the end of one, which editors add, is the
// usual reason why two sides do not understand each other. Serves the main job.
use crate::files::Loaded;
use channel::{Channel, Instance, Secrets};
use show::Refused;
use std::fmt;
use table::{Refusal, StartTag, TAG_BYTES};

fn ends_in_line_end(file: Loaded<'_>) -> bool {
    file.bytes.ends_with(b"\n")
}

// Of which file it is, and how long that is.
#[derive(Clone, Copy)]
struct Size<'a>(Loaded<'a>);

impl fmt::Display for Size<'_> {
    fn fmt<W: fmt::Write>(&self, f: &mut fmt::Formatter<W>) -> fmt::Result {
        let path = self.0.path;
        let n = self.0.bytes.len();
        let unit = if n == 1 { "byte" } else { "bytes" };
        write!(f, "{path} has {n} {unit}")
    }
}

fn refused(errors: &impl Print, file: Loaded<'_>, why: Refusal) {
    let size = Size(file);
    let why = Refused(why);
    let end = if ends_in_line_end(file) {
        "; the last byte is a line end, which editors add"
    } else {
        ""
    };
    show::tell(errors, format_args!("{size}: {why}{end}"));
}

// A line end may be meant, so it stays; but it is told.
fn note(errors: &impl Print, file: Loaded<'_>) {
    if ends_in_line_end(file) {
        let size = Size(file);
        show::tell(
            errors,
            format_args!(
                "note: {size}, the last a line end, which editors add; it is taken as a part of it"
            ),
        );
    }
}

// Both, where a start takes them.
pub fn usable<'a, L: Instance>(
    errors: &impl Print,
    key: Loaded<'a>,
    nonce: Loaded<'a>,
) -> Option<Secrets<'a>> {
    let secrets = Secrets {
        key: key.bytes,
        nonce: nonce.bytes,
    };
    match Channel::<L>::start(secrets, StartTag::None, &mut [0; TAG_BYTES]) {
        Err(Refusal::KeyLength) => {
            refused(errors, key, Refusal::KeyLength);
            None
        }
        Err(Refusal::NonceLength) => {
            refused(errors, nonce, Refusal::NonceLength);
            None
        }
        _ => {
            note(errors, key);
            note(errors, nonce);
            Some(secrets)
        }
    }
}
