// A file that is read, and what is counted of it.
use crate::packets::PacketCounts;
use crate::records::RecordCounts;
use crate::shown::Shown;
use crate::units::{SoFar, UnitCounts};
use std::io::{self, Eprint};

/// What is counted of a file: the units of a T2-MI stream, records, or the packets of a transport stream.
#[derive(Drop)]
pub enum InputCounts<'a> {
    Units(UnitCounts),
    Records(RecordCounts<'a>),
    Packets(PacketCounts),
}

/// A file that is read.
#[derive(Drop)]
pub struct Input<'a> {
    pub name: &'a str,
    pub counts: InputCounts<'a>,
}

impl<'a> Input<'a> {
    pub fn of_units(name: &'a str, pid: Option<u16>) -> Input<'a> {
        Input {
            name,
            counts: InputCounts::Units(UnitCounts::new(pid)),
        }
    }

    /// A feed, which may say that it is silent.
    pub fn of_feed(name: &'a str, pid: Option<u16>) -> Input<'a> {
        Input {
            name,
            counts: InputCounts::Units(UnitCounts::of_feed(pid)),
        }
    }

    pub fn of_records(name: &'a str, records: RecordCounts<'a>) -> Input<'a> {
        Input {
            name,
            counts: InputCounts::Records(records),
        }
    }

    pub fn of_packets(name: &'a str) -> Input<'a> {
        Input {
            name,
            counts: InputCounts::Packets(PacketCounts::new()),
        }
    }

    /// Bytes of it were read.
    pub fn take(&mut self, bytes: &[u8]) {
        match &mut self.counts {
            InputCounts::Units(units) => units.take(bytes),
            InputCounts::Records(records) => records.take(bytes),
            InputCounts::Packets(packets) => packets.take(bytes),
        }
    }

    /// Says what of it was passed over or damaged, if something was.
    pub fn say_damage(&self, rt: &impl Eprint) -> io::Result<()> {
        let file = Shown(self.name);
        match &self.counts {
            InputCounts::Units(units) if !units.is_clean() => eprintln!(rt; "{file}: {units}"),
            InputCounts::Records(records) => say_records(rt, file, records),
            _ => Ok(()),
        }
    }

    /// The records, if it has some.
    pub fn records(&self) -> Option<&RecordCounts<'a>> {
        match &self.counts {
            InputCounts::Records(records) => Some(records),
            _ => None,
        }
    }

    /// How many units of a T2-MI stream were lost or passed over, as far as they tell it.
    pub fn damaged_units(&self) -> u64 {
        match &self.counts {
            InputCounts::Units(units) => units.damaged(),
            _ => 0,
        }
    }

    /// Says it of a run that goes on, if some were.
    pub fn say_damaged_units(&self, rt: &impl Eprint) -> io::Result<()> {
        match &self.counts {
            InputCounts::Units(units) if units.damaged() > 0 => eprintln!(rt;
                "{}: {}",
                Shown(self.name),
                SoFar(units)
            ),
            _ => Ok(()),
        }
    }

    /// Says that units do not tell what was damaged, if it is so.
    pub fn say_whole(&self, rt: &impl Eprint) -> io::Result<()> {
        match &self.counts {
            InputCounts::Units(units) if units.is_followed() && units.is_clean() => eprintln!(rt;
                "{}: its units are whole, and their counters fit: bytes in them were damaged, 16 of them or a multiple were lost, or it was so before it became units",
                Shown(self.name)
            ),
            _ => Ok(()),
        }
    }

    /// Whether it is a feed that is silent.
    pub fn is_silent(&self) -> bool {
        matches!(&self.counts, InputCounts::Units(units) if units.is_silent())
    }

    /// Says that it is silent, or that it is not any more.
    pub fn say_silence(&self, rt: &impl Eprint) -> io::Result<()> {
        let file = Shown(self.name);
        match &self.counts {
            InputCounts::Units(units) if units.is_silent() => eprintln!(rt;
                "{file}: it fell silent"
            ),
            InputCounts::Units(units) => eprintln!(rt;
                "{file}: it comes again; idle units so far: {}",
                units.idle()
            ),
            _ => Ok(()),
        }
    }

    /// Whether many units came, and none of them can carry T2-MI.
    pub fn is_foreign(&self) -> bool {
        matches!(&self.counts, InputCounts::Units(units) if units.is_foreign())
    }

    /// Whether it has no unit that can carry T2-MI.
    pub fn has_no_units(&self) -> bool {
        matches!(&self.counts, InputCounts::Units(units) if units.has_none())
    }

    /// Says why no superframe was found, with these words in front.
    pub fn say_none(&self, rt: &impl Eprint, front: &str) -> io::Result<()> {
        match &self.counts {
            InputCounts::Units(units) => eprintln!(rt;
                "{}: {front}{}",
                Shown(self.name),
                units.why_none()
            ),
            InputCounts::Records(_) | InputCounts::Packets(_) => Ok(()),
        }
    }

    /// Of a transport stream, how many packets came.
    pub fn packets(&self) -> Option<u64> {
        match &self.counts {
            InputCounts::Packets(packets) => Some(packets.packets()),
            _ => None,
        }
    }

    /// Says of a transport stream that no packet came, if it is so: nothing else tells it.
    pub fn say_if_empty(&self, rt: &impl Eprint) -> io::Result<()> {
        if self.packets() == Some(0) {
            return eprintln!(rt;
                "{}: it has no packet; null packets stand for it",
                Shown(self.name)
            );
        }
        Ok(())
    }
}

// Says that there is no record, or which are muted, which of another network, and of which blocks are damaged.
fn say_records(rt: &impl Eprint, file: Shown<'_>, records: &RecordCounts<'_>) -> io::Result<()> {
    if records.count() == 0 {
        return eprintln!(rt; "{file}: it has no record; OUT is empty");
    }
    if records.muted().count() > 0 {
        eprintln!(rt;
            "{file}: {records}, counted from 0; null packets stand in OUT for what they carried"
        )?;
    }
    say_foreign(rt, file, records)?;
    say_damaged(rt, file, records)
}

fn say_foreign(rt: &impl Eprint, file: Shown<'_>, records: &RecordCounts<'_>) -> io::Result<()> {
    let foreign = records.foreign();
    if foreign.count() == 0 {
        return Ok(());
    }
    eprintln!(rt;
        "{file}: frames whose L1 is not that of CONFIG: {} of {}, records {foreign}, counted from 0; null packets stand in OUT for what they carried; see that CONFIG is that of the network",
        foreign.count(),
        records.count()
    )
}

fn say_damaged(rt: &impl Eprint, file: Shown<'_>, records: &RecordCounts<'_>) -> io::Result<()> {
    let damaged = records.damaged();
    if damaged.count() == 0 {
        return Ok(());
    }
    eprintln!(rt;
        "{file}: blocks whose header is damaged: {}, in records {damaged}, counted from 0; null packets stand in OUT for what they carried",
        records.damaged_blocks()
    )
}
