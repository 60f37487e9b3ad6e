// The record that waits.
ghost use Rattle.std.specs.Prelude.{◌≡◌};
ghost use Rattle.modulator.specs.StandsFor.{waits_for};

use frame_groups::Waiting;

/// Whether it is that of a frame.
pub fn is_of(waiting: Option<Waiting>, frame: u64) -> bool
    ensures { result ≡ waits_for waiting frame }
{
    match waiting {
        Some(record) => record.frame == frame,
        None => false,
    }
}
