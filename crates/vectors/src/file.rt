// A file of vectors: as much of it as fits.
ghost use Rattle.std.specs.Prelude.{◌≤◌, length};

use std::io;
use std::io::Read;

// Room for a file.
pub const ROOM: usize = 2_000_000;

// As much of an opened file as comes before it ends, a read fails or there is no more room. A loop over `read`: std's `read_to_end`
// wants the heap, and says little after a failure, before which a part counts here; the main job's loop (year_job) refuses such a file.
// `load` and `Words::given` have the same clause: each gives a part of what was lent, and a type for such a part would be a slice again.
fn read_full<'b>(file: &mut impl Read, room: &'b mut [u8]) -> &'b [u8]
    ensures { length result.now ≤ length room.old }
{
    let mut done = 0;
    while done < room.len() {
        match file.read(&mut room[done..]) {
            Ok(0) | Err(_) => break,
            Ok(n) => done += n,
        }
    }
    &room[..done]
}

// What was read of a file; nothing if it could not be opened.
pub fn load(opened: io::Result<impl Read + Drop>, room: &mut [u8]) -> &[u8]
    ensures { length result.now ≤ length room.old }
{
    match opened {
        Ok(mut file) => read_full(&mut file, room),
        Err(_) => &[],
    }
}
