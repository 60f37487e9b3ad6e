// How much stream time the bytes of a run are, by its configuration.
use crate::counts::{Kind, OutCounts, RunCounts};
use plp_config::{Config, PlpType};
use std::fmt::{self, Display, Formatter, Write};

// The time of so many bytes, in seconds.
fn by_rate(bytes: u64, bits_per_second: u64) -> u64 {
    bytes.saturating_mul(8) / bits_per_second.max(1)
}

// The bits a second of all PLPs, or of those that are not common.
fn rate_of(config: &Config, without_common: bool) -> u64 {
    let mut sum: u64 = 0;
    for place in 0..config.plps.len() {
        if let Some(plp) = config.plps.get(place)
            && !(without_common && plp.plp_type == PlpType::Common)
        {
            sum = sum.saturating_add(u64::from(plp.bits_per_second));
        }
    }
    sum
}

// The time of so many frames, in seconds.
fn by_frames(config: &Config, count: u64) -> u64 {
    let frame = u64::from(config.ticks).saturating_mul(u64::from(
        config.band.subseconds_per_tick(),
    ));
    let second = u64::from(config.band.subseconds_per_second());
    count.saturating_mul(frame) / second.max(1)
}

// The time of the packets of the PLP at a place.
fn by_plp(config: &Config, plp: Option<usize>, bytes: u64) -> Option<u64> {
    let plp = config.plps.get(plp?)?;
    Some(by_rate(bytes, u64::from(plp.bits_per_second)))
}

impl RunCounts<'_> {
    /// The stream time after so many bytes read and written, if it is known: of a gateway that of all that was read, of
    /// a receiver that of what was written, else that of the frames of OUT.
    pub fn stream_time(&self, read: u64, written: u64) -> Option<Seconds> {
        let config = self.plan?.config();
        let seconds = match (self.kind, &self.out) {
            (Kind::Gateway { common }, _) => by_rate(read, rate_of(config, common)),
            (Kind::Receive { plp }, _) => by_plp(config, plp, written)?,
            (_, OutCounts::Records(records)) => by_frames(config, records.count()),
            (_, OutCounts::T2mi(sent)) => by_frames(config, sent.frames()),
            (_, OutCounts::Nothing) => return None,
        };
        Some(Seconds(seconds))
    }
}

/// Seconds, as hours, minutes and seconds.
#[derive(Clone, Copy)]
pub struct Seconds(pub(crate) u64);

impl Display for Seconds {
    fn fmt<W: Write>(&self, f: &mut Formatter<W>) -> fmt::Result {
        write!(
            f,
            "{}:{:02}:{:02}",
            self.0 / 3600,
            self.0 / 60 % 60,
            self.0 % 60
        )
    }
}
