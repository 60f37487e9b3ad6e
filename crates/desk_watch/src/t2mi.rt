// The T2 frames and baseband frames of a T2-MI stream that lacks nothing, counted as its units come.
use ts_packet::{PAYLOAD, SIZE, read};

// The bytes of a T2-MI packet that are looked at, and where those behind its header stand that a baseband frame has:
// FRAME_IDX and PLP_ID (ETSI TS 102 773, clauses 5.1 and 5.2.1).
const FRONT: usize = 8;

const HEADER: usize = 6;

const CRC: usize = 4;

// The packet types of a baseband frame, and of an L1-current, of which each frame has one.
const BLOCK: u8 = 0x00;

const L1_CURRENT: u8 = 0x10;

// How many PLP_IDs there are.
const PLP_IDS: usize = 256;

/// Counts the frames of a T2-MI stream, and the baseband frames of each PLP, by the fronts of its packets. None may be
/// lacking: it is for a stream that this program wrote.
#[derive(Drop)]
pub struct T2miCounts {
    // The unit under way, and how much of it came.
    unit: [u8; SIZE],
    came: usize,
    // What came of the front under way, and how many bytes are lacking of the packet under way behind its front.
    front: [u8; FRONT],
    filled: usize,
    left: usize,
    frames: u64,
    blocks: [u64; PLP_IDS],
}

// How many bytes a packet has behind its front.
fn rest_of(front: &[u8; FRONT]) -> usize {
    let bits = u16::from_be_bytes([front[4], front[5]]);
    (HEADER + usize::from(bits).div_ceil(8) + CRC).saturating_sub(FRONT)
}

// Whether a unit is full of its payload, and no T2-MI packet begins in it (ISO/IEC 13818-1, clause 2.4.3.2).
fn goes_on(unit: &[u8; SIZE]) -> bool {
    unit[1] & 0x40 == 0 && unit[3] & 0x30 == 0x10
}

// The part of a T2-MI stream that a unit carries.
fn part_of(unit: &[u8; SIZE]) -> &[u8] {
    match read(unit) {
        Ok(view) if view.starts() => view.payload().get(1..).unwrap_or(&[]),
        Ok(view) => view.payload(),
        Err(_) => &[],
    }
}

// Puts bytes behind those that a room has, up to its end, and tells how many it has then.
fn put_behind(room: &mut [u8], has: usize, bytes: &[u8]) -> usize {
    let (_, free) = room.split_at_mut(has.min(room.len()));
    let count = bytes.len().min(free.len());
    free[..count].copy_from_slice(&bytes[..count]);
    has.saturating_add(count)
}

impl T2miCounts {
    /// Nothing came.
    pub fn new() -> T2miCounts {
        T2miCounts {
            unit: [0; SIZE],
            came: 0,
            front: [0; FRONT],
            filled: 0,
            left: 0,
            frames: 0,
            blocks: [0; PLP_IDS],
        }
    }

    /// How many frames began.
    pub fn frames(&self) -> u64 {
        self.frames
    }

    /// How many baseband frames of a PLP began, by its PLP_ID.
    pub fn blocks(&self, plp_id: u8) -> u64 {
        self.blocks.get(usize::from(plp_id)).copied().unwrap_or(0)
    }

    // Takes bytes of a packet behind its front, up to its end, and gives the others.
    fn pass<'a>(&mut self, bytes: &'a [u8]) -> &'a [u8] {
        let (passed, rest) = bytes.split_at(self.left.min(bytes.len()));
        self.left = self.left.saturating_sub(passed.len());
        rest
    }

    // Takes bytes of a front, up to its end, and gives the others.
    fn fill<'a>(&mut self, bytes: &'a [u8]) -> &'a [u8] {
        let (part, rest) = bytes.split_at(FRONT.saturating_sub(self.filled).min(bytes.len()));
        self.filled = put_behind(&mut self.front, self.filled, part);
        if self.filled >= FRONT {
            self.begin();
        }
        rest
    }

    // A front is whole.
    fn begin(&mut self) {
        self.filled = 0;
        self.left = rest_of(&self.front);
        match self.front[0] {
            L1_CURRENT => self.frames = self.frames.saturating_add(1),
            BLOCK => self.add_block(self.front[7]),
            _ => {}
        }
    }

    fn add_block(&mut self, plp_id: u8) {
        if let Some(count) = self.blocks.get_mut(usize::from(plp_id)) {
            *count = count.saturating_add(1);
        }
    }

    // Takes what a unit carries.
    fn take_part(&mut self, part: &[u8]) {
        let mut rest = part;
        for _ in 0..part.len() {
            if rest.is_empty() {
                return;
            }
            rest = if self.left > 0 {
                self.pass(rest)
            } else {
                self.fill(rest)
            };
        }
    }

    // Takes a unit. Most are within a packet.
    fn take_unit(&mut self, unit: &[u8; SIZE]) {
        if self.left >= PAYLOAD && goes_on(unit) {
            self.left -= PAYLOAD;
        } else {
            self.take_part(part_of(unit));
        }
    }

    // Takes bytes of the unit under way, up to its end at most.
    fn go_on(&mut self, bytes: &[u8]) {
        self.came = put_behind(&mut self.unit, self.came, bytes);
        if self.came >= SIZE {
            self.came = 0;
            let unit = self.unit;
            self.take_unit(&unit);
        }
    }

    /// Takes bytes, any number.
    pub fn take(&mut self, piece: &[u8]) {
        let lacks = if self.came == 0 {
            0
        } else {
            SIZE.saturating_sub(self.came)
        };
        let (front, rest) = piece.split_at(lacks.min(piece.len()));
        self.go_on(front);
        for unit in rest.chunks(SIZE) {
            match unit.try_into() {
                Ok(whole) => self.take_unit(whole),
                Err(_) => self.go_on(unit),
            }
        }
    }
}
