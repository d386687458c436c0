// The rides of the calls: a message, from lanes and a text start, and a start. The only place where the engine is called.
ghost use Rattle.std.specs.Prelude.{◌≡◌, ◌%◌, ◌≤◌, ◌<◌, length};
ghost use Rattle.keccak.specs.State.{bytes};
ghost use Rattle.lanes.specs.Width.{instance};
ghost use Rattle.motorist.specs.Instance.{text_rate};
ghost use Rattle.motorist.specs.Rode.{Rode};
ghost use Rattle.calls.specs.Ends.{Began};
ghost use Rattle.keyak.specs.Keyak.{kind, message, ride, start_ride};

use engine::Ran;
use lanes::Lanes;
use rates::ByteCount;
use table::StartTag;

pub fn of_message<L: Lanes>(
    lanes: L,
    at: usize,
    text: &[u8],
    meta: &[u8],
    forget: bool,
    out: &mut [u8],
    decrypt: bool,
) -> Ran<L>
    requires at_bound { (at < text_rate (instance L.L)) × (at % L.BYTES ≡ 0) × (length text.now ≤ length out.old) }
    requires text_len_bound { (length text.now ≤ 65535) × (length meta.now ≤ 65535) }
    ensures { Rode (ride (kind L.L L.BYTES L.lanes L.of_lanes) decrypt lanes at (message text.now meta.now forget)) (length text.now) out.old (bytes L.BYTES (L.lanes result.lanes)) out.new result.runs }
{
    engine::message(lanes, ByteCount(at), text, meta, forget, out, decrypt)
}

pub fn of_start<L: Lanes>(key: &[u8], nonce: &[u8], forget: bool, choice: StartTag) -> Ran<L>
    requires { (length key.now ≤ 32) × (length nonce.now ≤ 1024) }
    ensures { Began (start_ride L.L key.now nonce.now forget choice) (bytes L.BYTES (L.lanes result.lanes)) result.runs }
{
    engine::start(key, nonce, forget, choice.is_asked())
}
