// The record that is given: of the group's frame, or of a muted one.
ghost use Rattle.std.specs.Prelude.{◌≡◌, ◌<◌, ◌≤◌, ◌⊎◌, ◌↔◌, ◌&&◌, ◌++◌, ◌^◌, ◌%◌, [], true, false, is_some, List};
ghost use Rattle.std.specs.Prelude.{Option, Some, None, length, take, drop};
ghost use Rattle.plp_config.specs.Emission.{emission};
ghost use Rattle.site_frame.specs.Whole.{record_bytes};
ghost use Rattle.frame_groups.specs.Groups.{Group};
ghost use Rattle.frame_groups.specs.Modulated.{Numbered};
ghost use Rattle.frame_groups.specs.Records.{record_of};
ghost use Rattle.frame_groups.specs.Tests.{group_fault};
ghost use Rattle.open_group.specs.FrameBytes.{is_frame, bytes_left, most_left, status_of};
ghost use Rattle.open_group.specs.Holds.{Holds};
ghost use Rattle.open_group.specs.Written.{spelled, packets_view};

use crate::group::PooledGroup;
use crate::writer_laws::written_law;
use bb_frame::bit_counts_law;
use frame_groups::{Waiting, tally_law};
use plp_config::Moment;

impl<'p> PooledGroup<'p> {
    // Begins the record of its frame: its number, the moment at which it leaves, and its number in its superframe.
    fn begin_frame(&mut self, number: u64, moment: &Moment, frame_idx: u8)
        requires intact { self.old.intact ≡ true }
        requires frame { is_frame self.old ≡ true }
        ensures left { (past : List Numbered) (h : Group) → moment.now ≡ emission self.old.network number
            → frame_idx ≡ number % self.old.network.frames
            → Holds self.old past (Some h) → group_fault self.old.network past h number ≡ None
            → bytes_left self.new ≡ record_bytes (packets_view self.old.network number h.packets) }
        ensures some { 0 < length (bytes_left self.new) }
        ensures most { length (bytes_left self.new) ≤ most_left self.old.network }
        ensures group { (past : List Numbered) (g : Option Group) → Holds self.old past g → Holds self.new past g }
        ensures status { status_of self.new ≡ record (status_of self.old) { intact = false } }
    {
        tally_law();
        bit_counts_law();
        written_law();
        self.network.plan().rules_law();
        self.blocks.fits_chunks();
        self.l1.begin_frame(
            self.network.plan(),
            &self.conf,
            number,
            moment,
            frame_idx,
            &mut self.writer,
        );
        self.intact = false;
    }

    /// Begins to give the bytes of the record that waits: of its frame, or of a muted one.
    pub fn begin_record(&mut self, waiting: Waiting)
        requires small { waiting.frame < 2 ^ 32 }
        requires frame { waiting.mute ≡ None → (self.old.intact ≡ true) × (is_frame self.old ≡ true) }
        ensures left { (past : List Numbered) (h : Group) → Holds self.old past (Some h)
            → (waiting.mute ≡ None → group_fault self.old.network past h waiting.frame ≡ None)
            → bytes_left self.new ≡ spelled self.old.network (record_of h waiting) }
        ensures some { 0 < length (bytes_left self.new) }
        ensures most { length (bytes_left self.new) ≤ most_left self.old.network }
        ensures group { (past : List Numbered) (g : Option Group) → Holds self.old past g → Holds self.new past g }
        ensures status { status_of self.new ≡ record (status_of self.old) {
          intact = is_some waiting.mute && self.old.intact;
        } }
    {
        let moment = self.network.plan().emission(waiting.frame);
        let frame_idx = self.network.plan().frame_idx(waiting.frame);
        match waiting.mute {
            Some(_) => self.writer.begin_muted(&moment),
            None => self.begin_frame(waiting.frame, &moment, frame_idx),
        }
    }

    /// Gives the next bytes of the record.
    pub fn take(&mut self, out: &mut [u8]) -> usize
        ensures most { result ≤ length out.old }
        ensures bytes { bytes_left self.old ≡ take result out.new ++ bytes_left self.new }
        ensures stays { (length out.new ≡ length out.old) × (drop result out.new ≡ drop result out.old) }
        ensures none { (result ≡ 0) ↔ ((length out.old ≡ 0) ⊎ (bytes_left self.old ≡ [])) }
        ensures group { (past : List Numbered) (g : Option Group) → Holds self.old past g → Holds self.new past g }
        ensures status { status_of self.new ≡ status_of self.old }
    {
        let plan = self.network.plan();
        let _done = self.writer.is_done();
        self.blocks
            .give(plan, self.l1.last_shape(), &mut self.writer, out)
    }

    /// Whether all bytes of the record were given.
    pub fn is_taken(&self) -> bool
        ensures yes { result ≡ true → bytes_left self.now ≡ [] }
        ensures no { result ≡ false → 0 < length (bytes_left self.now) }
    {
        self.writer.is_done()
    }
}
