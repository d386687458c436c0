// A file into a room that the caller lends, all of it or nothing. Serves the main job.
ghost use Rattle.std.specs.Prelude.{◌≤◌, length, IfOk, IfSome};

use std::io::{ErrorKind, Read};
use std::rt::Files;
use std::{fs, io, str};
use wrong::file::{BadFile, Input};

// How long each file may be; wrong::file says the first. Of key and nonce more is read than either may have, so that the start refuses them.
pub const DIPS: usize = 16384;

pub const KEY: usize = 64;

pub const NONCE: usize = 2048;

// A file that was read, with its name.
#[derive(Clone, Copy)]
pub struct Loaded<'a> {
    pub path: &'a str,
    pub bytes: &'a [u8],
}

// Reads until the room is full or the file ends; what was read. A `read` takes what the system gives, so it counts; std's `read_to_end` wants the
// heap. `vectors::file::read_full` is another loop: it keeps what came before a failure, which is told here.
fn fill<'a>(file: &mut impl Read, room: &'a mut [u8]) -> io::Result<&'a [u8]>
    ensures { IfOk result (λ bytes. length bytes.now ≤ length room.old) }
{
    let mut done = 0;
    while done < room.len() {
        let n = file.read(&mut room[done..])?;
        if n == 0 {
            break;
        }
        done += n;
    }
    Ok(&room[..done])
}

// Whether there is no more of a file.
fn is_read(file: &mut impl Read) -> io::Result<bool> {
    Ok(file.read(&mut [0; 1])? == 0)
}

// A file by its name. No name that is not UTF-8 can be opened.
fn read<'a>(
    files: &impl Files,
    path: &'a [u8],
    room: &'a mut [u8],
    input: Input,
) -> Result<Loaded<'a>, BadFile>
    ensures { IfOk result (λ loaded. length loaded.bytes.now ≤ length room.old) }
{
    let path = str::from_utf8(path).map_err(|_| BadFile::Unread(ErrorKind::InvalidInput))?;
    let mut file = fs::open(files, path)?;
    let bytes = fill(&mut file, room)?;
    if is_read(&mut file)? {
        Ok(Loaded { path, bytes })
    } else {
        Err(BadFile::TooLong(input))
    }
}

// What keeps it from being read is told.
pub fn load<'a>(
    files: &impl Files,
    errors: &impl Print,
    path: &'a [u8],
    room: &'a mut [u8],
    input: Input,
) -> Option<Loaded<'a>>
    ensures { IfSome result (λ loaded. length loaded.bytes.now ≤ length room.old) }
{
    match read(files, path, room, input) {
        Ok(loaded) => Some(loaded),
        Err(why) => {
            wrong::file::of_file(errors, path, why);
            None
        }
    }
}
