// What a trial counts.
ghost use Rattle.std.specs.Prelude.{◌≡◌, ◌<◌, ◌*◌, [], IfOk};
ghost use Rattle.t2mi_stream.specs.Units.{unit_at};
ghost use Rattle.trial_run.specs.Counts.{filled_packets as count_of_filled, filled_of_first, AreCut};
ghost use Rattle.trial_run.specs.Counts.{is_frame as tells_frame, stand_in, is_among as stands_among};
ghost use Rattle.trial_run.specs.Counts.{same_count as count_of_same};
ghost use Rattle.trial_run.specs.Losses.{unit_count};

use crate::stop::TrialStop;
use site_frame::{RecordView, read_record};
use std::alloc::Global;
use ts_packet::{SIZE, TsPacket};

/// A record of a file.
#[derive(Clone, Copy)]
pub struct Piece<'a> {
    /// Whether it is of a frame, and not muted.
    pub is_frame: bool,
    /// Its bytes.
    pub bytes: &'a [u8],
}

// A packet, by its number.
fn packet_at(bytes: &[u8], number: usize) -> TsPacket
    requires { number < unit_count bytes.now }
    ensures { result ≡ unit_at bytes.now number }
{
    let mut packet = [0; SIZE];
    packet.copy_from_slice(&bytes[SIZE * number..SIZE * (number + 1)]);
    TsPacket::from_array(packet)
}

/// How many packets are not null.
#[tactic(auto, unfolding(crate::specs::Counts::filled_of_first), using(crate::proofs::CutLemmas::filled_more))]
pub fn filled_packets(bytes: &[u8]) -> u64
    ensures { result ≡ count_of_filled bytes.now }
{
    let mut count = 0;
    for number in 0..bytes.len() / SIZE {
        if !packet_at(bytes, number).is_null() {
            count += 1;
        }
    }
    count
}

fn is_frame(view: &RecordView<'_>) -> bool
    ensures { result ≡ tells_frame view.now }
{
    match view {
        RecordView::Frame { .. } => true,
        RecordView::Muted { .. } => false,
    }
}

/// Cuts a file of records into them.
pub fn cut(alloc: Global, file: &[u8]) -> Result<Vec<Piece<'_>>, TrialStop>
    ensures { IfOk result (λ pieces. AreCut file.now pieces.items []) }
{
    let mut pieces = Vec::new(alloc);
    let mut rest = file;
    while !rest.is_empty() {
        let Ok((view, len)) = read_record(rest) else {
            // The file is what a modulator wrote. That it writes nothing but records is not proved; in no trial that
            // was tried does this come.
            return Err(TrialStop::Broken);
        };
        let (bytes, behind) = rest.split_at(len);
        let is_frame = is_frame(&view);
        pieces.push(Piece { is_frame, bytes })?;
        rest = behind;
    }
    Ok(pieces)
}

// Whether bytes are those of one of some records.
#[tactic(auto, using(crate::proofs::CutLemmas::next_other))]
fn stands_in(others: &[Piece<'_>], bytes: &[u8]) -> bool
    ensures { result ≡ stand_in others.now bytes.now }
{
    for other in others {
        if bytes == other.bytes {
            return true;
        }
    }
    false
}

fn is_among(others: &[Piece<'_>], piece: &Piece<'_>) -> bool
    ensures { result ≡ stands_among others.now piece.now }
{
    piece.is_frame && stands_in(others, piece.bytes)
}

/// How many records are of frames and stand among others.
#[tactic(auto, unfolding(crate::specs::Counts::same_count))]
pub fn same_count(others: &[Piece<'_>], pieces: &[Piece<'_>]) -> u64
    ensures { result ≡ count_of_same others.now pieces.now }
{
    let mut count = 0;
    for piece in pieces {
        if is_among(others, piece) {
            count += 1;
        }
    }
    count
}
