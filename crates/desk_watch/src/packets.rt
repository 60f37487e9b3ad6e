// The packets of a transport stream, counted by their first bytes as they come.
use std::fmt::{self, Display, Formatter, Write};
use ts_packet::SIZE;

// The bytes of a packet that are looked at: those of its header.
const HEADER: usize = 4;

// The PID of a header, and that of null packets (ISO/IEC 13818-1, clause 2.4.3.3).
const PID: u32 = 0x1FFF << 8;

/// How many packets came, and how many of them are null.
#[derive(Drop)]
pub struct PacketCounts {
    // How much of the packet under way came, and its last bytes that were looked at.
    came: usize,
    header: u32,
    packets: u64,
    nulls: u64,
}

impl PacketCounts {
    /// Nothing came.
    pub fn new() -> PacketCounts {
        PacketCounts {
            came: 0,
            header: 0,
            packets: 0,
            nulls: 0,
        }
    }

    /// How many came.
    pub fn packets(&self) -> u64 {
        self.packets
    }

    /// How many of them are null.
    pub fn nulls(&self) -> u64 {
        self.nulls
    }

    // A whole packet came, with this header.
    fn note(&mut self, header: u32) {
        self.packets = self.packets.saturating_add(1);
        self.nulls = self.nulls.saturating_add(u64::from(header & PID == PID));
    }

    // Takes bytes of the packet under way, up to its end at most.
    fn go_on(&mut self, bytes: &[u8]) {
        for byte in bytes.iter().take(HEADER.saturating_sub(self.came)) {
            self.header = self.header << 8 | u32::from(*byte);
        }
        self.came = self.came.saturating_add(bytes.len());
        if self.came >= SIZE {
            self.came = 0;
            self.note(self.header);
        }
    }

    /// Takes bytes, any number.
    pub fn take(&mut self, piece: &[u8]) {
        let lacks = if self.came == 0 {
            0
        } else {
            SIZE.saturating_sub(self.came)
        };
        let (front, rest) = piece.split_at(lacks.min(piece.len()));
        self.go_on(front);
        for packet in rest.chunks(SIZE) {
            match packet {
                [a, b, c, d, ..] if packet.len() == SIZE => self.note(u32::from_be_bytes([
                    *a, *b, *c, *d,
                ])),
                _ => self.go_on(packet),
            }
        }
    }
}

impl Display for PacketCounts {
    fn fmt<W: Write>(&self, f: &mut Formatter<W>) -> fmt::Result {
        write!(
            f,
            "packets: {}, null packets among them: {}",
            self.packets, self.nulls
        )
    }
}
