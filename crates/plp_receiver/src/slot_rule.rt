// Which slot a user packet has.
ghost use Rattle.std.specs.Prelude.{◌≡◌, ◌≤◌};
ghost use Rattle.plp_receiver.specs.Sound.{IsSound};

use plp_config::SlotTimes;

/// The slots of a PLP, its frames, and what its user packets have.
///
/// An interleaving frame is an epoch: the blocks of an epoch carry the user packets of the slots that end in it.
#[derive(Clone, Copy, Debug, PartialEq, Eq)]
pub struct SlotRule {
    /// The slots and the epochs in ticks.
    pub times: SlotTimes,
    /// Ticks of a frame, 1 at least.
    pub ticks: u64,
    /// Frames of an epoch, 1 at least: it has `spread * ticks` ticks.
    pub spread: u64,
    /// Bytes of a user packet: 187 or 188.
    pub up_len: usize,
    /// Null packets are deleted: the last byte of a user packet is its dnp.
    pub deletes: bool,
}

impl SlotRule {
    ghost use Rattle.plp_receiver.specs.Times.{epoch_of};

    /// The epoch to which a frame belongs.
    pub fn epoch_of(&self, frame: u64) -> u64
        requires sound { IsSound self.now }
        ensures value { result ≡ epoch_of self.now frame }
        ensures most { result ≤ frame }
    {
        frame / self.spread
    }
}
