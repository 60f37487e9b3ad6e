// The key of a packet: which frame of which superframe it belongs to.
ghost use Rattle.std.specs.Prelude.{◌≡◌, Some};
ghost use Rattle.frame_groups.specs.Groups.{is_counted, is_same, key_behind, stamp_key};

use t2mi_packet::{Body, Packet};

/// Which frame of which superframe.
#[derive(Clone, Copy, Debug, PartialEq, Eq)]
pub struct Key {
    /// superframe_idx, below 16.
    pub superframe: u8,
    /// frame_idx: 0 for the first frame of a superframe.
    pub frame: u8,
}

// The key of a timestamp.
fn stamp_key(before: Option<Key>, superframe: u8) -> Key
    ensures { result ≡ stamp_key before superframe }
{
    match before {
        Some(key) => {
            if key.superframe == superframe {
                key
            } else {
                Key {
                    superframe,
                    frame: 0,
                }
            }
        }
        None => Key {
            superframe,
            frame: 0,
        },
    }
}

/// Whether a packet belongs to a frame, in superframes of so many frames.
pub fn is_counted(frames: u8, packet: &Packet<'_>) -> bool
    ensures { result ≡ is_counted frames packet.now }
{
    match &packet.body {
        Body::Block { frame_idx, .. } => *frame_idx < frames,
        Body::L1Current { frame_idx, .. } => *frame_idx < frames,
        Body::Timestamp(_) => true,
        Body::Other { .. } => false,
    }
}

/// The key of a packet that comes behind one with the key before, or first of all.
pub fn key_behind(before: Option<Key>, packet: &Packet<'_>) -> Key
    ensures { result ≡ key_behind before packet.now }
{
    match &packet.body {
        Body::Block { frame_idx, .. } => Key {
            superframe: packet.superframe,
            frame: *frame_idx,
        },
        Body::L1Current { frame_idx, .. } => Key {
            superframe: packet.superframe,
            frame: *frame_idx,
        },
        Body::Timestamp(_) => stamp_key(before, packet.superframe),
        Body::Other { .. } => Key {
            superframe: packet.superframe,
            frame: 0,
        },
    }
}

fn is_same(one: Key, other: Key) -> bool
    ensures { result ≡ is_same one other }
{
    one.superframe == other.superframe && one.frame == other.frame
}

/// Whether a packet that comes behind one with this key has the same key.
pub fn goes_on(key: Key, packet: &Packet<'_>) -> bool
    ensures { result ≡ is_same key (key_behind (Some key) packet.now) }
{
    is_same(key, key_behind(Some(key), packet))
}
