// A law of spaced frames. Its function does nothing.
ghost use Rattle.spaced_frames.specs.Laws.{SpacedAreNear};

/// Of spaced frames each packet is at most [`crate::FARTHEST`] superframes behind the one before.
pub fn spaced_law()
    ensures { SpacedAreNear }
{}
