// What a group shows of the frame that its packets make.
ghost use Rattle.std.specs.Prelude.{◌≡◌, ◌≤◌, List, Some, true, length};
ghost use Rattle.l1_signal.specs.declared.lengths.TheConstants.{MOST_DYN_BITS};
ghost use Rattle.open_group.specs.RecordBytes.{AreShort};
ghost use Rattle.frame_groups.specs.Groups.{Group};
ghost use Rattle.frame_groups.specs.Modulated.{Numbered};
ghost use Rattle.open_group.specs.FrameBytes.{dynamic_of, lists_of, is_frame, has_room};
ghost use Rattle.open_group.specs.Holds.{Holds};
ghost use Rattle.open_group.specs.Shown.{AreBlocks};
ghost use Rattle.open_group.specs.Written.{dynamic_in};

use crate::group::PooledGroup;
use bit_slice::BitSlice;
use linked_pool::Pool;

impl<'p> PooledGroup<'p> {
    /// The dynamic part of its first L1-current, as it came.
    pub fn dynamic(&self) -> BitSlice<'_>
        requires frame { is_frame self.now ≡ true }
        ensures held { result ≡ dynamic_of self.now }
        ensures value { (past : List Numbered) (h : Group) → self.now.intact ≡ true → Holds self.now past (Some h)
            → result ≡ dynamic_in h.packets }
        ensures short { length result ≤ MOST_DYN_BITS }
    {
        self.l1.parts().dynamic()
    }

    /// Whether its blocks that have the length of their PLP have room.
    pub fn has_room(&self) -> bool
        ensures { result ≡ has_room self.now }
    {
        let (chunks, need) = self.blocks.chunks();
        need <= chunks
    }

    /// Its blocks, as they came, a list for each PLP.
    pub fn blocks(&self) -> &Pool
        ensures held { result.now.lists ≡ lists_of self.now }
        ensures plps { length result.now.lists ≡ length self.now.network.plps }
        ensures short { AreShort result.now.lists }
        // They are those that have the length of their PLP, if all these have room: also if the frame is muted for
        // another reason.
        ensures blocks { (past : List Numbered) (h : Group) → self.now.intact ≡ true → Holds self.now past (Some h)
            → has_room self.now ≡ true → AreBlocks self.now.network h.packets result.now.lists }
    {
        self.blocks.pool()
    }
}
