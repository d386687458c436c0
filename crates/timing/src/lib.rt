// One call of Lake and of River at a time from C, on a session whose lanes C lends. Serves bench/timing, which marks them secret; no public call.
// Each export is the generic call of `once` at its type.
#![tactic(auto)]

mod once;

ghost use Rattle.std.specs.Prelude.{◌≡◌, []};
ghost use Rattle.keyak.specs.Lake.{lake_kind};
ghost use Rattle.keyak.specs.River.{river_kind};
ghost use Rattle.timing.specs.Once.{once, starting, wrapping, unwrapping};

// A name for each instance, since C has no generics; numbers for the start tag's use and the answer, as C's header declares them; and a parameter for
// each buffer, since C has no slices that a struct could hold.
#[unsafe(no_mangle)]
pub extern "C" fn lake_start_once(
    key: &[u8],
    nonce: &[u8],
    forget: bool,
    choice: u8,
    tag: &mut [u8],
    lanes: &mut [u64; 25],
) -> u8
    ensures { once result lanes.new [] tag.new ≡ starting lake_kind key.now nonce.now forget choice tag.old }
{
    once::start(key, nonce, forget, choice, tag, lanes)
}

// A name for each instance, a number for the answer and a parameter for each buffer: C has no generics, no `Result` and no slices for a struct.
#[unsafe(no_mangle)]
pub extern "C" fn lake_wrap_once(
    lanes: &mut [u64; 25],
    at: usize,
    text: &[u8],
    meta: &[u8],
    forget: bool,
    out: &mut [u8],
    tag: &mut [u8],
) -> u8
    ensures { once result lanes.new out.new tag.new ≡ wrapping lake_kind lanes.old at text.now meta.now forget out.old tag.old }
{
    once::wrap(lanes, at, text, meta, forget, out, tag)
}

// A name for each instance, a number for the answer and a parameter for each buffer: C has no generics, no `Result` and no slices for a struct.
#[unsafe(no_mangle)]
pub extern "C" fn lake_unwrap_once(
    lanes: &mut [u64; 25],
    at: usize,
    text: &[u8],
    meta: &[u8],
    tag: &[u8],
    forget: bool,
    out: &mut [u8],
) -> u8
    ensures { once result lanes.new out.new tag.now ≡ unwrapping lake_kind lanes.old at text.now meta.now tag.now forget out.old }
{
    once::unwrap(lanes, at, text, meta, tag, forget, out)
}

// C's second name, since it has no generics; its numbers and parameters are those of the first.
#[unsafe(no_mangle)]
pub extern "C" fn river_start_once(
    key: &[u8],
    nonce: &[u8],
    forget: bool,
    choice: u8,
    tag: &mut [u8],
    lanes: &mut [u32; 25],
) -> u8
    ensures { once result lanes.new [] tag.new ≡ starting river_kind key.now nonce.now forget choice tag.old }
{
    once::start(key, nonce, forget, choice, tag, lanes)
}

// C's second name, since it has no generics; its numbers and parameters are those of the first.
#[unsafe(no_mangle)]
pub extern "C" fn river_wrap_once(
    lanes: &mut [u32; 25],
    at: usize,
    text: &[u8],
    meta: &[u8],
    forget: bool,
    out: &mut [u8],
    tag: &mut [u8],
) -> u8
    ensures { once result lanes.new out.new tag.new ≡ wrapping river_kind lanes.old at text.now meta.now forget out.old tag.old }
{
    once::wrap(lanes, at, text, meta, forget, out, tag)
}

// C's second name, since it has no generics; its numbers and parameters are those of the first.
#[unsafe(no_mangle)]
pub extern "C" fn river_unwrap_once(
    lanes: &mut [u32; 25],
    at: usize,
    text: &[u8],
    meta: &[u8],
    tag: &[u8],
    forget: bool,
    out: &mut [u8],
) -> u8
    ensures { once result lanes.new out.new tag.now ≡ unwrapping river_kind lanes.old at text.now meta.now tag.now forget out.old }
{
    once::unwrap(lanes, at, text, meta, tag, forget, out)
}
