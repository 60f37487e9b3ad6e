// Reading a record.
ghost use Rattle.std.specs.Prelude.{◌≡◌, ◌↔◌, ℕ, ◌+◌, ◌-◌, ◌<◌, ◌≤◌, ◌^◌, List, ◌++◌, length, IsTrue, IfOk, IfErr};
ghost use Rattle.std.specs.Prelude.{Ok};
ghost use Rattle.std.specs.Prelude.{Err, take};
ghost use Rattle.site_frame.specs.Record.{head_len};
ghost use Rattle.site_frame.specs.Reading.{Gives};
ghost use Rattle.site_frame.specs.Whole.{HasHead, view_in, told_moment, IsRead, IsRefused, BeginsWith};
ghost use Rattle.site_frame.specs.Whole.{Refuses, Follow};
ghost use Rattle.site_frame.specs.Whole.{RefusesHead, IsRight, IsRightAlone, IsWrong};
ghost use Rattle.site_frame.specs.declared.fault.RecordWhy.{RecordWhy};
ghost use Rattle.site_frame.specs.declared.reading.RecordView.{RecordView};

use crate::blocks::Blocks;
use crate::cells::Cells;
use crate::fault::RecordWhy;
use crate::head::{FRAME, GREATEST_REST, HEAD, LEAST_REST, MAGIC, MUTED};
use crate::parts::split_rest;
use bit_slice::BitSlice;
use byteorder::{BigEndian, ByteOrder};
use plp_config::Moment;

/// A record that was read. Nothing is copied.
#[derive(Drop)]
pub enum RecordView<'a> {
    /// A frame that is sent.
    Frame {
        /// When it leaves.
        moment: Moment,
        /// L1-pre with its CRC.
        pre: BitSlice<'a>,
        /// L1-post.
        post: BitSlice<'a>,
        /// The scrambled blocks.
        blocks: Blocks<'a>,
        /// The cells by their addresses.
        cells: Cells<'a>,
    },
    /// A frame that is not sent.
    Muted {
        /// When it would leave.
        moment: Moment,
    },
}

fn has_head(bytes: &[u8]) -> bool
    ensures { IsTrue result ↔ HasHead bytes.now }
{
    bytes.len() >= HEAD
        && bytes[0] == MAGIC[0]
        && bytes[1] == MAGIC[1]
        && bytes[2] == MAGIC[2]
        && bytes[3] == MAGIC[3]
        && bytes[5] == 0
        && bytes[6] == 0
        && bytes[7] == 0
}

// When the frame leaves, as a head tells it.
fn moment_at(bytes: &[u8]) -> Moment
    requires { head_len ≤ length bytes.now }
    ensures { result ≡ told_moment bytes.now }
{
    Moment {
        seconds: BigEndian::read_u64(&bytes[8..]),
        subseconds: BigEndian::read_u32(&bytes[16..]),
    }
}

// The record of a kind with this rest.
fn view(kind: u8, moment: Moment, rest: &[u8]) -> Option<RecordView<'_>>
    requires { length rest.now < 2 ^ 60 }
    ensures { Gives (λ v. v) result (view_in kind moment rest.now) }
{
    if kind == MUTED {
        return match rest {
            [] => Some(RecordView::Muted { moment }),
            [_, ..] => None,
        };
    }
    let parts = split_rest(rest)?;
    Some(RecordView::Frame {
        moment,
        pre: parts.pre,
        post: parts.post,
        blocks: parts.blocks,
        cells: parts.cells,
    })
}

// How many bytes the head at the front tells behind it.
fn told(bytes: &[u8]) -> Result<usize, RecordWhy>
    ensures ok { IfOk result (IsRight bytes.now) }
    ensures err { IfErr result (IsRefused bytes.now) }
    ensures wrong { IfErr result (IsWrong bytes.now) }
{
    if !has_head(bytes) {
        return Err(RecordWhy::Head);
    }
    let kind = bytes[4];
    if kind != FRAME && kind != MUTED {
        return Err(RecordWhy::Kind);
    }
    let rest = BigEndian::read_u32(&bytes[20..]) as usize;
    if rest > GREATEST_REST {
        return Err(RecordWhy::Length);
    }
    Ok(rest)
}

// The same of a head that stands alone: a muted one tells 0, and that of a frame what its numbers fill at least.
fn told_alone(head: &[u8]) -> Result<usize, RecordWhy>
    ensures ok { IfOk result (IsRightAlone head.now) }
    ensures wrong { IfErr result (IsWrong head.now) }
{
    let rest = told(head)?;
    if head[4] == MUTED && rest > 0 || head[4] == FRAME && rest < LEAST_REST {
        return Err(RecordWhy::Length);
    }
    Ok(rest)
}

/// The head at the front of some bytes.
pub fn front_head(bytes: &[u8]) -> [u8; HEAD]
    requires { HEAD ≤ length bytes.now }
    ensures { result ≡ take HEAD bytes.now }
{
    let mut head = [0; HEAD];
    head.copy_from_slice(&bytes[..HEAD]);
    head
}

/// How many bytes follow the head of a record, `GREATEST_REST` at most, or why no record begins with this head,
/// whatever follows.
///
/// If as many bytes follow, [`read_record`] reads them all or refuses them.
pub fn rest_len(head: &[u8; HEAD]) -> Result<usize, RecordWhy>
    ensures ok { IfOk result (Follow head.now) }
    // If a record begins with the head, its length is told.
    ensures every { (more : List ℕ) (view : RecordView) (len : ℕ) → BeginsWith (head.now ++ more) view len
        → result ≡ Ok (len - head_len) }
    ensures err { IfErr result (RefusesHead head.now) }
{
    told_alone(head)
}

// Reads a record place by place.
pub(crate) fn parse(bytes: &[u8]) -> Result<(RecordView<'_>, usize), RecordWhy>
    ensures ok { IfOk result (λ x. IsRead bytes.now x.0 x.1) }
    ensures err { IfErr result (IsRefused bytes.now) }
{
    let rest = told(bytes)?;
    let len = HEAD + rest;
    if bytes.len() < len {
        return Err(RecordWhy::Length);
    }
    match view(bytes[4], moment_at(bytes), &bytes[HEAD..len]) {
        Some(view) => Ok((view, len)),
        None => Err(RecordWhy::Length),
    }
}

/// The record at the front of the bytes, and its length in bytes.
///
/// Bytes that begin with no record have one refusal: the first of `Head`, `Kind` and `Length` that holds.
pub fn read_record(bytes: &[u8]) -> Result<(RecordView<'_>, usize), RecordWhy>
    ensures ok { IfOk result (λ x. BeginsWith bytes.now x.0 x.1) }
    // If the bytes begin with a record, it is read.
    ensures every { (view : RecordView) (len : ℕ) → BeginsWith bytes.now view len → result ≡ Ok (view, len) }
    ensures err { IfErr result (Refuses bytes.now) }
    // If the bytes are refused, the refusal is told.
    ensures refused { (why : RecordWhy) → Refuses bytes.now why → result ≡ Err why }
{
    parse(bytes)
}
