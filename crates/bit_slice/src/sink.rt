//! Where bits are written to.
ghost use Rattle.std.specs.Prelude.{◌≡◌, ◌<◌, ◌≤◌, ◌^◌, length, OnOk, OnErr, IfErr};
ghost use Rattle.terms.specs.Bits.{field};
ghost use Rattle.bit_slice.specs.Sink.{State, Puts, Refuses};

use crate::BitSlice;
use thiserror::Error;

/// Why bits were not put. Numbers are of bits.
#[derive(Clone, Copy, Debug, PartialEq, Eq, Error)]
pub enum SinkFault {
    /// The sink has an end, and less room before it than a put needs.
    #[error("{need} bits do not fit in the {room} that are left")]
    Full { need: u64, room: u64 },
    /// The sink grows, and no memory was found.
    #[error("out of memory")]
    OutOfMemory,
}

/// What bits are appended to. After a fault it is as it was.
pub trait BitSink {
    /// The bits written, the room left if there is an end, whether the sink grows, and what stood in the sinks that it
    /// is around.
    ghost state: { Self → State };

    /// Appends a field of `width` bits that holds the value.
    fn put(&mut self, value: u64, width: u32) -> Result<(), SinkFault>
        requires narrow { width ≤ 64 }
        requires fits { value < 2 ^ width }
        ensures ok { OnOk result (Puts (state self.old) (state self.new) (field width value)) }
        ensures err { OnErr result (state self.new ≡ state self.old) }
        ensures fault { IfErr result (Refuses (state self.old) width) };

    /// Appends bits.
    fn put_slice(&mut self, bits: BitSlice<'_>) -> Result<(), SinkFault>
        ensures ok { OnOk result (Puts (state self.old) (state self.new) bits.entry) }
        ensures err { OnErr result (state self.new ≡ state self.old) }
        ensures fault { IfErr result (Refuses (state self.old) (length bits.entry)) };
}
