// The bytes of a record, of which one piece is in hand.
ghost use Rattle.std.specs.Prelude.{◌≡◌, ◌<◌, ◌≤◌, ◌+◌, ◌-◌, ◌*◌, ◌⊎◌, ◌++◌, ◌∷◌, [], ℕ, List, length, take, drop};
ghost use Rattle.byteorder.specs.Endian.{big_bytes};
ghost use Rattle.linked_pool.specs.Pool.{popped};
ghost use Rattle.plp_config.specs.declared.config.Config.{Config};
ghost use Rattle.scheduler.specs.Shape.{FrameShape};
ghost use Rattle.open_group.specs.Steps.{step_bytes, HasMap, HasLists, IsStep};
ghost use Rattle.site_frame.specs.Words.{words};
ghost use Rattle.open_group.specs.RecordBytes.{piece_len, list_at, front_of, AreShort, sent_bytes, lists_bytes};
ghost use Rattle.open_group.specs.declared.step.Step.TheVariants.{Blocks, Cells, Done};

use crate::piece::Piece;
use crate::signalling::{Configurable, put_front, put_muted};
use crate::step::Step;
use bit_slice::{BitSlice, OutOfMemory};
use byteorder::{BigEndian, ByteOrder};
use l1_signal::MOST_DYN_BITS;
use linked_pool::Pool;
use plp_config::{Moment, Plan};
use scheduler::Shape;
use site_frame::fill_words;
use std::alloc::Global;

// The cells of a piece. They are few, since words for which the caller has room go there at once.
const PIECE_CELLS: u32 = 16;

// The bytes of a cell's word.
const WORD: usize = 4;

// How many cells of those left go into a piece.
fn fitting(left: u32) -> u32
    ensures most { result ≤ left }
    ensures few { 4 * result ≤ piece_len }
    ensures some { result ≡ 0 → left ≡ 0 }
{
    left.min(PIECE_CELLS)
}

// The first list from one on that has a block, or their number.
fn next_list(pool: &Pool, first: usize, end: usize) -> usize
    requires order { first ≤ end }
    requires end { end ≡ length pool.now.lists }
    requires few { end ≤ 255 }
    ensures inside { result ≤ end }
    ensures some { result < end → 0 < length (list_at pool.now.lists result) }
    ensures same { (c : Config) → lists_bytes c first (drop first pool.now.lists)
        ≡ lists_bytes c result (drop result pool.now.lists) }
{
    for plp in first..end {
        if pool.count(plp as u32) > 0 {
            return plp;
        }
    }
    end
}

// Puts the head of a block.
fn put_head(id: u8, len: u16, out: &mut Piece)
    requires empty { out.old ≡ [] }
    ensures { out.new ≡ id ∷ 0 ∷ big_bytes 2 len }
{
    let mut head = [id, 0, 0, 0];
    BigEndian::write_u16(&mut head[2..], len);
    out.put(&head);
}

// Puts the first block of a list, and takes it from there.
fn put_block(plan: &Plan, pool: &mut Pool, plp: usize, out: &mut Piece)
    requires plp { plp < length plan.now.plps }
    requires list { plp < length pool.old.lists }
    requires few { plp < 255 }
    requires some { 0 < length (list_at pool.old.lists plp) }
    requires short { AreShort pool.old.lists }
    requires empty { out.old ≡ [] }
    ensures out { out.new ≡ sent_bytes plan.now plp (front_of pool.old.lists plp) }
    ensures pool { pool.new ≡ popped pool.old plp }
{
    let list = plp as u32;
    let block = pool.front(list).unwrap();
    put_head(plan.plp_id(plp), block.len() as u16, out);
    out.put_block(&block);
    pool.pop(list);
}

// Puts the next block, or behind the last one the number of cells.
fn build_block(plan: &Plan, pool: &mut Pool, plp: usize, out: &mut Piece) -> Step
    requires lists { HasLists plan.now pool.old.lists }
    requires inside { plp ≤ length pool.old.lists }
    requires empty { out.old ≡ [] }
    ensures bytes { (shape : FrameShape) (frame_idx : ℕ) → step_bytes plan.now shape frame_idx pool.old.lists
        (Blocks plp)
        ≡ out.new ++ step_bytes plan.now shape frame_idx pool.new.lists result }
    ensures some { 0 < length out.new }
    ensures step { (shape : FrameShape) → HasMap plan.now shape → IsStep plan.now shape pool.new.lists result }
    ensures lists { HasLists plan.now pool.new.lists }
    ensures opened { pool.new.opened ≡ pool.old.opened }
    ensures spare { pool.old.spare ≤ pool.new.spare }
{
    let end = plan.config().plps.len();
    let next = next_list(pool, plp, end);
    if next < end {
        put_block(plan, pool, next, out);
        return Step::Blocks(next);
    }
    let mut cells = [0; 4];
    BigEndian::write_u32(&mut cells, plan.config().cells);
    out.put(&cells);
    Step::Cells(0)
}

// Puts the words of the next cells, if there are any.
fn build_cells(plan: &Plan, shape: &Shape, frame_idx: u8, address: u32, out: &mut Piece) -> Step
    requires map { HasMap plan.now shape.now }
    requires inside { address ≤ plan.now.cells }
    requires empty { out.old ≡ [] }
    ensures bytes { (lists : List (List (List ℕ))) → words plan.now shape.now frame_idx address
        (plan.now.cells - address)
        ≡ out.new ++ step_bytes plan.now shape.now frame_idx lists result }
    ensures none { out.new ≡ [] → result ≡ Done }
    ensures step { (lists : List (List (List ℕ))) → IsStep plan.now shape.now lists result }
{
    let count = fitting(plan.config().cells - address);
    out.put_words(plan, shape, frame_idx, address, count);
    if count == 0 {
        return Step::Done;
    }
    Step::Cells(address + count)
}

// Puts the next bytes of a frame in place of those in hand, and answers what comes behind them.
fn build(
    plan: &Plan,
    shape: &Shape,
    frame_idx: u8,
    pool: &mut Pool,
    step: Step,
    out: &mut Piece,
) -> Step
    requires { IsStep plan.now shape.now pool.old.lists step }
    ensures bytes { step_bytes plan.now shape.now frame_idx pool.old.lists step
        ≡ out.new ++ step_bytes plan.now shape.now frame_idx pool.new.lists result }
    ensures none { out.new ≡ [] → result ≡ Done }
    ensures step { IsStep plan.now shape.now pool.new.lists result }
    ensures last { step ≡ Done → (result ≡ Done) × (pool.new ≡ pool.old) }
    ensures lists { HasLists plan.now pool.old.lists → HasLists plan.now pool.new.lists }
    ensures opened { pool.new.opened ≡ pool.old.opened }
    ensures spare { pool.old.spare ≤ pool.new.spare }
{
    out.clear();
    match step {
        Step::Blocks(plp) => build_block(plan, pool, plp, out),
        Step::Cells(address) => build_cells(plan, shape, frame_idx, address, out),
        Step::Done => Step::Done,
    }
}

// Writes the words of the cells that come next straight to a place, as many as have room behind it, and answers how
// many bytes these are.
fn fill_cells(
    plan: &Plan,
    shape: &Shape,
    frame_idx: u8,
    step: &mut Step,
    out: &mut [u8],
    from: usize,
) -> usize
    requires from { from ≤ length out.old }
    requires cells { (address : ℕ) → step.old ≡ Cells address → (address ≤ plan.now.cells) × HasMap plan.now shape.now }
    ensures most { from + result ≤ length out.old }
    ensures bytes { (lists : List (List (List ℕ))) → step_bytes plan.now shape.now frame_idx lists step.old
        ≡ take result (drop from out.new) ++ step_bytes plan.now shape.now frame_idx lists step.new }
    ensures stays { (length out.new ≡ length out.old) × (drop (from + result) out.new ≡ drop (from + result) out.old) }
    ensures front { take from out.new ≡ take from out.old }
    ensures step { (lists : List (List (List ℕ))) → IsStep plan.now shape.now lists step.old
        → IsStep plan.now shape.now lists step.new }
    ensures last { step.old ≡ Done → (step.new ≡ Done) × (result ≡ 0) }
{
    let Step::Cells(address) = *step else {
        return 0;
    };
    let left = plan.config().cells - address;
    let count = ((out.len() - from) / WORD).min(left as usize);
    let size = WORD * count;
    fill_words(
        plan,
        shape,
        frame_idx,
        address,
        count as u32,
        &mut out[from..from + size],
    );
    *step = Step::Cells(address + count as u32);
    size
}

// Copies bytes from a place on.
fn copy_from(piece: &Piece, at: usize, out: &mut [u8]) -> usize
    requires { at ≤ length piece.now }
    ensures most { (result ≤ length out.old) × (at + result ≤ length piece.now) }
    ensures small { at + result ≤ piece_len }
    ensures out { take result out.new ≡ take result (drop at piece.now) }
    ensures stays { (length out.new ≡ length out.old) × (drop result out.new ≡ drop result out.old) }
    ensures none { result ≡ 0 → (length out.old ≡ 0) ⊎ (at ≡ length piece.now) }
{
    let size = out.len().min(piece.len() - at);
    out[..size].copy_from_slice(&piece.as_slice()[at..at + size]);
    size
}

/// The bytes of a record, of which one piece is in hand.
#[derive(Drop)]
pub struct Writer {
    piece: Piece,
    at: usize,
    step: Step,
    // The number in its superframe of the frame whose cells come.
    frame_idx: u8,
    ghost within: { at ≤ length piece },
    // The next byte is in hand, if there is one.
    ghost eager: { at ≡ length piece → step ≡ Done },
}

impl Writer {
    ghost use Rattle.std.specs.Prelude.{◌≡◌, ◌<◌, ◌≤◌, ◌++◌, ◌⊎◌, ◌↔◌, ℕ, List, [], length, take, drop, IfOk, true};
    ghost use Rattle.std.specs.Prelude.{false};
    ghost use Rattle.plp_config.specs.declared.config.Config.{Config};
    ghost use Rattle.scheduler.specs.Shape.{FrameShape};
    ghost use Rattle.l1_signal.specs.L1Configurable.{conf_bits};
    ghost use Rattle.l1_signal.specs.L1Of.{conf_of};
    ghost use Rattle.open_group.specs.Front.{front_bytes};
    ghost use Rattle.open_group.specs.declared.step.Step.TheVariants.{Blocks};
    ghost use Rattle.site_frame.specs.Record.{head_bytes, muted_kind};
    ghost use Rattle.linked_pool.specs.Pool.{used_chunks};
    ghost use Rattle.open_group.specs.RecordBytes.{AreShort, piece_len};
    ghost use Rattle.open_group.specs.Steps.{step_bytes, HasMap, HasLists};
    ghost use Rattle.open_group.specs.Writes.{bytes_left, most_record, IsReady, IsLast, is_done};

    /// Nothing to write. It takes all the memory that it needs.
    pub fn open(alloc: Global) -> Result<Writer, OutOfMemory>
        ensures done { IfOk result (λ w. is_done w ≡ true) }
        ensures last { IfOk result IsLast }
        ensures ready { IfOk result (λ w. (c : Config) (shape : FrameShape) (lists : List (List (List ℕ)))
            → IsReady w c shape lists) }
    {
        Ok(Writer {
            piece: Piece::open(alloc)?,
            at: 0,
            step: Step::Done,
            frame_idx: 0,
        })
    }

    /// Nothing is left to give.
    pub fn clear(&mut self)
        ensures done { is_done self.new ≡ true }
        ensures last { IsLast self.new }
        ensures ready { (c : Config) (shape : FrameShape) (lists : List (List (List ℕ)))
            → IsReady self.new c shape lists }
    {
        self.piece.clear();
        self.at = 0;
        self.step = Step::Done;
    }

    /// Begins the record of the frame of this number in its superframe: its head tells `rest`, and it has so many
    /// blocks, which wait in the pool.
    pub fn begin_frame(
        &mut self,
        plan: &Plan,
        conf: &Configurable,
        moment: &Moment,
        frame_idx: u8,
        dynamic: BitSlice<'_>,
        blocks: u16,
        rest: u32,
    )
        requires conf { conf.now ≡ conf_bits (conf_of plan.now) }
        requires short { length dynamic ≤ MOST_DYN_BITS }
        ensures left { (shape : FrameShape) (lists : List (List (List ℕ)))
            → bytes_left self.new plan.now shape lists
            ≡ front_bytes plan.now moment.now dynamic.entry blocks rest
            ++ step_bytes plan.now shape frame_idx lists (Blocks 0) }
        ensures most { (shape : FrameShape) (lists : List (List (List ℕ)))
            → length (bytes_left self.new plan.now shape lists) ≤ most_record plan.now (used_chunks lists) }
        ensures ready { (shape : FrameShape) (lists : List (List (List ℕ))) → HasMap plan.now shape
            → HasLists plan.now lists
            → IsReady self.new plan.now shape lists }
        ensures done { is_done self.new ≡ false }
    {
        self.piece.clear();
        put_front(plan, conf, moment, dynamic, blocks, rest, &mut self.piece);
        self.at = 0;
        self.step = Step::Blocks(0);
        self.frame_idx = frame_idx;
    }

    /// Begins the record of a muted frame.
    pub fn begin_muted(&mut self, moment: &Moment)
        ensures left { (c : Config) (shape : FrameShape) (lists : List (List (List ℕ)))
            → bytes_left self.new c shape lists ≡ head_bytes muted_kind moment.now 0 }
        ensures most { (c : Config) (shape : FrameShape) (lists : List (List (List ℕ)))
            → length (bytes_left self.new c shape lists) ≤ piece_len }
        ensures last { IsLast self.new }
        ensures ready { (c : Config) (shape : FrameShape) (lists : List (List (List ℕ)))
            → IsReady self.new c shape lists }
        ensures done { is_done self.new ≡ false }
    {
        self.piece.clear();
        put_muted(moment, &mut self.piece);
        self.at = 0;
        self.step = Step::Done;
    }

    /// Gives the next bytes of the record: what is left of the piece in hand, and behind it as many words of cells as
    /// there is room for. It takes blocks from the pool as it goes.
    pub fn take(&mut self, plan: &Plan, shape: &Shape, pool: &mut Pool, out: &mut [u8]) -> usize
        requires { IsReady self.old plan.now shape.now pool.old.lists }
        ensures last { IsLast self.old → IsLast self.new × (pool.new ≡ pool.old) }
        ensures most { result ≤ length out.old }
        ensures bytes { bytes_left self.old plan.now shape.now pool.old.lists
            ≡ take result out.new ++ bytes_left self.new plan.now shape.now pool.new.lists }
        ensures stays { (length out.new ≡ length out.old) × (drop result out.new ≡ drop result out.old) }
        ensures none { (result ≡ 0) ↔ ((length out.old ≡ 0) ⊎ (is_done self.old ≡ true)) }
        ensures lists { HasLists plan.now pool.old.lists → HasLists plan.now pool.new.lists }
        ensures opened { pool.new.opened ≡ pool.old.opened }
        ensures spare { pool.old.spare ≤ pool.new.spare }
        ensures ready { IsReady self.new plan.now shape.now pool.new.lists }
    {
        let size = copy_from(&self.piece, self.at, out);
        if self.at + size < self.piece.len() {
            self.at += size;
            return size;
        }
        let filled = fill_cells(plan, shape, self.frame_idx, &mut self.step, out, size);
        self.step = build(
            plan,
            shape,
            self.frame_idx,
            pool,
            self.step,
            &mut self.piece,
        );
        self.at = 0;
        size + filled
    }

    /// Whether all bytes were given.
    pub fn is_done(&self) -> bool
        ensures is { result ≡ is_done self.now }
        ensures none { result ≡ true → (c : Config) (shape : FrameShape) (lists : List (List (List ℕ)))
            → bytes_left self.now c shape lists ≡ [] }
        ensures some { result ≡ false → (c : Config) (shape : FrameShape) (lists : List (List (List ℕ)))
            → 0 < length (bytes_left self.now c shape lists) }
    {
        self.at == self.piece.len()
    }
}
