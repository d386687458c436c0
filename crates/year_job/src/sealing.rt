// The year sealed on one channel and opened on a second, each by one walk over its months. Serves the main job.
use crate::files::Loaded;
use crate::report::{Report, Verdict};
use crate::{attacks, opened};
use arrayvec::ArrayVec;
use channel::{Channel, Instance, Secrets};
use packets::{HEADER, Packet, READINGS};
use table::{Refusal, StartTag, TAG_BYTES};
use wrong::file::{BadCall, BadFile};
use year_text::{Found, Year};

// The months' packets sealed. The first refusal ends it: what a packet hands to a wrap has lengths that it takes, so that it could
// only be a session that was not started, which is refused each month alike.
fn seal_all<L: Instance>(
    mut channel: Channel<L>,
    year: &Year,
) -> Result<ArrayVec<Packet, 12>, Refusal> {
    let mut sealed = ArrayVec::new();
    for month in year.as_slice() {
        sealed.push(channel.seal(&month.packet)?);
    }
    Ok(sealed)
}

// A month opened on the second channel: its row, and whether its readings can be read and are those of the plain packet.
fn open_month<L: Instance>(
    report: &mut Report<'_, impl Print, impl Print>,
    channel: &mut Channel<L>,
    sealed: &Packet,
    plain: &Packet,
) {
    let mut out = [0; READINGS];
    match channel.unseal(sealed, HEADER, &mut out) {
        Ok(done) => {
            // The part of a room that was lent: `unseal` writes to a slice that is there, and no allocator is handed in.
            let readings = &out[..sealed.text_length()];
            opened::month(report, sealed, readings, done.runs);
            if readings != plain.text() {
                report.came(Verdict::Altered);
            }
        }
        Err(why) => {
            show::tell(report.errors, BadCall::Open(why));
            // None of its readings came out.
            report.came(Verdict::Altered);
        }
    }
}

// The months opened on the second channel, the names that the borehole goes by, then what the channel must refuse.
fn open_year<L: Instance>(
    report: &mut Report<'_, impl Print, impl Print>,
    second: Channel<L>,
    sealed: &[Packet],
    year: &Year,
) {
    let mut channel = second;
    for (packet, month) in sealed.iter().zip(year.iter()) {
        open_month(report, &mut channel, packet, &month.packet);
    }
    report.names(year);
    attacks::try_all(report, second, sealed);
}

// The months sealed on the first side, and opened on the second, which checks the start tag of the first.
fn send_all<L: Instance>(
    report: &mut Report<'_, impl Print, impl Print>,
    secrets: Secrets<'_>,
    found: Found<'_>,
) -> Result<(), BadCall> {
    let mut tag = [0; TAG_BYTES];
    let first = Channel::<L>::start(secrets, StartTag::Produced, &mut tag).map_err(BadCall::Start)?;
    let sealed = seal_all(first, found.year).map_err(BadCall::Seal)?;
    let second = Channel::<L>::start(secrets, StartTag::Checked, &mut tag).map_err(BadCall::Start)?;
    report.head(L::NAME, &tag);
    open_year(report, second, &sealed, found.year);
    report.foot(found);
    Ok(())
}

// `None` where nothing was sealed, and why was told.
pub fn send<L: Instance>(
    mut report: Report<'_, impl Print, impl Print>,
    secrets: Secrets<'_>,
    found: Found<'_>,
) -> Option<()> {
    match send_all::<L>(&mut report, secrets, found) {
        Ok(()) => Some(()),
        Err(why) => {
            show::tell(report.errors, why);
            None
        }
    }
}

// The year of a file, where there is one.
fn year_of<'a>(errors: &impl Print, dips: Loaded<'_>, room: &'a mut Year) -> Option<Found<'a>> {
    let path = dips.path.as_bytes();
    if line_text::has_mark(dips.bytes) {
        wrong::file::of_file(errors, path, BadFile::Marked);
        return None;
    }
    let found = year_text::read_dips(errors, dips.bytes, room)?;
    if found.year.is_empty() {
        wrong::file::of_file(errors, path, BadFile::NoMonth);
        return None;
    }
    Some(found)
}

pub fn run<L: Instance>(
    report: Report<'_, impl Print, impl Print>,
    secrets: Secrets<'_>,
    dips: Loaded<'_>,
) -> Option<()> {
    let mut room = Year::new();
    let found = year_of(report.errors, dips, &mut room)?;
    send::<L>(report, secrets, found)
}
