// The records of a file, counted as its bytes come: those of muted frames and of other networks, and blocks that are
// damaged.
use crate::l1_test::L1Test;
use crate::runs::Runs;
use bb_frame::{BbFault, HEADER_BYTES, read_frame, scramble};
use bit_slice::BitSlice;
use l1_signal::{MOST_POST_BYTES, PRE_BYTES};
use site_frame::{HEAD, front_head, rest_len};
use std::fmt::{self, Display, Formatter, Write};

// The parts of the rest of a record, in bytes: L1-pre and the number of bits of L1-post, the number of blocks, and the
// head of a block.
const FRONT: usize = PRE_BYTES + 4;

const BLOCK_COUNT: usize = 2;

const BLOCK_HEAD: usize = 4;

/// What of records is looked into: L1 signalling by a network, and the headers of the blocks of a PLP and of the common
/// one of its group.
#[derive(Drop)]
pub struct Inside<'p> {
    pub l1: L1Test<'p>,
    pub plp_id: u8,
    pub common_id: Option<u8>,
}

impl Inside<'_> {
    // Whether the blocks of a PLP are looked at.
    fn follows(&self, plp_id: u8) -> bool {
        self.plp_id == plp_id || self.common_id == Some(plp_id)
    }
}

// The part of a record that comes next.
#[derive(Clone, Copy)]
enum Part {
    // A record's head.
    Head,
    // L1-pre, and the number of bits of L1-post.
    Front,
    // L1-post, of so many bits.
    Post { bits: usize },
    // The number of blocks.
    BlockCount,
    // The head of a block, of so many that are left.
    BlockHead { left: u16 },
    // The header of a block of so many bytes, of so many that are left.
    Header { len: usize, left: u16 },
}

/// The records of a file, counted, and by their numbers those that are muted, those whose L1 is not that of the
/// network, and those of which blocks have damaged headers.
#[derive(Drop)]
pub struct RecordCounts<'p> {
    inside: Option<Inside<'p>>,
    // What comes next, its first bytes, how many of them came, and how many it has.
    part: Part,
    bytes: [u8; MOST_POST_BYTES],
    filled: usize,
    wanted: usize,
    // How many bytes are passed over before it, and how many the record has behind it.
    skipped: usize,
    left: usize,
    count: u64,
    muted: Runs,
    foreign: Runs,
    damaged: Runs,
    damaged_blocks: u64,
}

// Whether a scrambled block that begins so has a header of the high-efficiency mode, with its CRC-8.
fn has_header(front: &[u8; HEADER_BYTES]) -> bool {
    let mut header = *front;
    scramble(&mut header);
    !matches!(
        read_frame(BitSlice::whole(&header)),
        Err(BbFault::Mode | BbFault::Crc)
    )
}

impl<'p> RecordCounts<'p> {
    /// Nothing came. With `None` nothing is looked into but heads.
    pub fn new(inside: Option<Inside<'p>>) -> RecordCounts<'p> {
        RecordCounts {
            inside,
            part: Part::Head,
            bytes: [0; MOST_POST_BYTES],
            filled: 0,
            wanted: HEAD,
            skipped: 0,
            left: 0,
            count: 0,
            muted: Runs::new(),
            foreign: Runs::new(),
            damaged: Runs::new(),
            damaged_blocks: 0,
        }
    }

    // The number of the record under way, counted from 0.
    fn number(&self) -> u64 {
        self.count.saturating_sub(1)
    }

    // So many bytes of the record are passed over.
    fn skip(&mut self, count: usize) {
        let count = count.min(self.left);
        self.left -= count;
        self.skipped = self.skipped.saturating_add(count);
    }

    // The rest of the record is passed over.
    fn skip_rest(&mut self) {
        self.skip(self.left);
        self.part = Part::Head;
        self.wanted = HEAD;
    }

    // A part of so many bytes comes next, if the record has as many.
    fn want(&mut self, part: Part, count: usize) {
        if count == 0 || count > self.left || count > MOST_POST_BYTES {
            return self.skip_rest();
        }
        self.left -= count;
        self.part = part;
        self.wanted = count;
    }

    // Some of so many blocks come next, or none.
    fn want_block(&mut self, left: u16) {
        if left == 0 {
            self.skip_rest();
        } else {
            self.want(Part::BlockHead { left }, BLOCK_HEAD);
        }
    }

    // A head is whole. Of a muted record nothing follows.
    fn end_head(&mut self) {
        let number = self.count;
        self.count = self.count.saturating_add(1);
        match rest_len(&front_head(&self.bytes)) {
            Ok(0) => self.muted.add(number),
            Ok(rest) => self.begin(rest),
            // No record begins so: the next head is looked for behind it.
            Err(_) => {}
        }
    }

    // A record has so many bytes behind its head.
    fn begin(&mut self, rest: usize) {
        self.left = rest;
        if self.inside.is_some() {
            self.want(Part::Front, FRONT);
        } else {
            self.skip_rest();
        }
    }

    // The record is not of the network.
    fn pass_foreign(&mut self) {
        let number = self.number();
        self.foreign.add(number);
        self.skip_rest();
    }

    // L1-pre is whole.
    fn end_front(&mut self) {
        let (pre, len) = front_parts(&self.bytes);
        let bits = u32::from_be_bytes(len) as usize;
        let is_pre = self
            .inside
            .as_ref()
            .map_or(false, |inside| inside.l1.is_pre(&pre));
        if is_pre && bits <= 8 * MOST_POST_BYTES {
            self.want(Part::Post { bits }, bits.div_ceil(8));
        } else {
            self.pass_foreign();
        }
    }

    // L1-post is whole.
    fn end_post(&mut self, bits: usize) {
        let bytes = &self.bytes;
        let is_post = self
            .inside
            .as_mut()
            .map_or(false, |inside| inside.l1.is_post(bytes, bits));
        if is_post {
            self.want(Part::BlockCount, BLOCK_COUNT);
        } else {
            self.pass_foreign();
        }
    }

    // The number of blocks is whole.
    fn end_block_count(&mut self) {
        let count: [u8; BLOCK_COUNT] = first_of(&self.bytes);
        self.want_block(u16::from_be_bytes(count));
    }

    // The head of a block is whole.
    fn end_block_head(&mut self, left: u16) {
        let [plp_id, _, high, low] = block_head(&self.bytes);
        let len = usize::from(u16::from_be_bytes([high, low]));
        let follows = self
            .inside
            .as_ref()
            .map_or(false, |inside| inside.follows(plp_id));
        if follows && len >= HEADER_BYTES {
            self.want(Part::Header { len, left }, HEADER_BYTES);
        } else {
            self.skip(len);
            self.want_block(left.saturating_sub(1));
        }
    }

    // The header of a block is whole.
    fn end_header(&mut self, len: usize, left: u16) {
        if !has_header(&first_of(&self.bytes)) {
            let number = self.number();
            self.damaged.add(number);
            self.damaged_blocks = self.damaged_blocks.saturating_add(1);
        }
        self.skip(len.saturating_sub(HEADER_BYTES));
        self.want_block(left.saturating_sub(1));
    }

    fn end_part(&mut self) {
        match self.part {
            Part::Head => self.end_head(),
            Part::Front => self.end_front(),
            Part::Post { bits } => self.end_post(bits),
            Part::BlockCount => self.end_block_count(),
            Part::BlockHead { left } => self.end_block_head(left),
            Part::Header { len, left } => self.end_header(len, left),
        }
    }

    // Takes bytes that are passed over, and gives the others.
    fn pass<'a>(&mut self, bytes: &'a [u8]) -> &'a [u8] {
        let (passed, rest) = bytes.split_at(self.skipped.min(bytes.len()));
        self.skipped = self.skipped.saturating_sub(passed.len());
        rest
    }

    // Takes bytes of the part under way, up to its end, and gives the others.
    fn fill<'a>(&mut self, bytes: &'a [u8]) -> &'a [u8] {
        let lacks = self.wanted.saturating_sub(self.filled);
        let (front, rest) = bytes.split_at(lacks.min(bytes.len()));
        for (place, byte) in self.bytes.iter_mut().skip(self.filled).zip(front) {
            *place = *byte;
        }
        self.filled = self.filled.saturating_add(front.len());
        if self.filled >= self.wanted {
            self.filled = 0;
            self.end_part();
        }
        rest
    }

    /// Takes bytes, any number.
    pub fn take(&mut self, piece: &[u8]) {
        let mut rest = piece;
        for _ in 0..piece.len() {
            if rest.is_empty() {
                return;
            }
            rest = if self.skipped > 0 {
                self.pass(rest)
            } else {
                self.fill(rest)
            };
        }
    }

    /// How many came.
    pub fn count(&self) -> u64 {
        self.count
    }

    /// Those that are muted.
    pub fn muted(&self) -> &Runs {
        &self.muted
    }

    /// Those whose L1 is not that of the network.
    pub fn foreign(&self) -> &Runs {
        &self.foreign
    }

    /// Those in which blocks that are looked at have damaged headers.
    pub fn damaged(&self) -> &Runs {
        &self.damaged
    }

    /// How many blocks that are.
    pub fn damaged_blocks(&self) -> u64 {
        self.damaged_blocks
    }

    /// Whether so many are muted at the end, or more.
    pub fn ends_muted(&self, count: u64) -> bool {
        self.muted.in_a_row_before(self.count) >= count.max(1)
    }
}

// The first bytes.
fn first_of<const N: usize>(bytes: &[u8; MOST_POST_BYTES]) -> [u8; N] {
    let mut first = [0; N];
    for (place, byte) in first.iter_mut().zip(bytes) {
        *place = *byte;
    }
    first
}

// The head of a block: PLP_ID, a zero, and the length.
fn block_head(bytes: &[u8; MOST_POST_BYTES]) -> [u8; BLOCK_HEAD] {
    first_of(bytes)
}

// L1-pre, and what stands behind it.
fn front_parts(bytes: &[u8; MOST_POST_BYTES]) -> ([u8; PRE_BYTES], [u8; 4]) {
    let mut len = [0; 4];
    for (place, byte) in len.iter_mut().zip(bytes.iter().skip(PRE_BYTES)) {
        *place = *byte;
    }
    (first_of(bytes), len)
}

impl Display for RecordCounts<'_> {
    fn fmt<W: Write>(&self, f: &mut Formatter<W>) -> fmt::Result {
        write!(
            f,
            "muted frames: {} of {}, records {}",
            self.muted.count(),
            self.count,
            self.muted
        )
    }
}
