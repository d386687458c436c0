// What the receiving side must refuse: a header taken one byte too long, a flipped bit, a month left out. Serves the main job.
// Each is tried on a channel that opened the months before, at the last month that has readings.
use crate::report::{Report, Verdict};
use channel::{Channel, Instance};
use packets::{HEADER, Packet, READINGS};
use show::Answered;
use table::Refusal;

// The channel after some packets, whose readings are not wanted. Were one refused, the tries after it would be refused by 1, and told so.
fn after<L: Instance>(mut channel: Channel<L>, sealed: &[Packet]) -> Channel<L> {
    for packet in sealed {
        let _ = channel.unseal(packet, HEADER, &mut [0; READINGS]);
    }
    channel
}

// Tries a packet with its first `head` bytes as header, and an output that held other bytes; what was done, the answer's number and words, and
// whether the output is zero.
fn attempt<L: Instance>(
    report: &mut Report<'_, impl Print, impl Print>,
    what: &str,
    mut channel: Channel<L>,
    packet: &Packet,
    head: usize,
) {
    let mut out = [0xaa; READINGS];
    let answer = channel.unseal(packet, head, &mut out);
    let size = (HEADER + packet.text_length()).saturating_sub(head);
    let zero = out.iter().take(size).all(|b| *b == 0);
    if !zero || answer != Err(Refusal::TagDiffers) {
        report.came(Verdict::NotRefused);
    }
    let came = if zero {
        "no reading came out, the output is zero"
    } else {
        "the output is not zero"
    };
    let answer = Answered(answer);
    let line = print!(report.output; "  {what:<29}{answer}; {came} over {size} bytes\n");
    report.note(line);
}

// All three at a packet, the last one with readings, behind those before it; that before it left out only where there is one.
fn try_at<L: Instance>(
    report: &mut Report<'_, impl Print, impl Print>,
    channel: Channel<L>,
    before: &[Packet],
    packet: &Packet,
) {
    let ready = after(channel, before);
    let mut flipped = *packet;
    flipped.bytes[HEADER] ^= 1;
    attempt(
        report,
        "header taken a byte too long",
        ready,
        packet,
        HEADER + 1,
    );
    attempt(report, "one bit flipped", ready, &flipped, HEADER);
    if let Some((_, fewer)) = before.split_last() {
        let early = after(channel, fewer);
        attempt(report, "the month before left out", early, packet, HEADER);
    }
}

// All tries, under a line that says on what.
pub fn try_all<L: Instance>(
    report: &mut Report<'_, impl Print, impl Print>,
    channel: Channel<L>,
    sealed: &[Packet],
) {
    match sealed.iter().rposition(|packet| 0 < packet.text_length()) {
        Some(last) => {
            let line = print!(report.output;
                "\nThe last month with readings, each time on a session that opened those before it:\n"
            );
            report.note(line);
            try_at(report, channel, &sealed[..last], &sealed[last]);
        }
        None => {
            let line = print!(report.output; "\nNo month has readings to tamper with.\n");
            report.note(line);
        }
    }
}
