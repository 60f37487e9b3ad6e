// What is under way.

/// Nothing, a superframe of a timestamp alone before a frame, or the frame.
#[derive(Clone, Copy, Debug, PartialEq, Eq)]
pub(crate) enum Stage {
    Idle,
    Spaces,
    Sends,
}
