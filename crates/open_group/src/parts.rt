// The parts of an L1-current.
ghost use Rattle.std.specs.Prelude.{◌≡◌, ◌+◌, ◌≤◌, ◌++◌, length};
ghost use Rattle.std.specs.Bool.{beq};
ghost use Rattle.std.specs.Cmp.Lexicographic.{pointwise};
ghost use Rattle.open_group.specs.declared.parts.TheConstants.{MOST_BITS};

use bit_slice::{BitSink, BitSlice, FixedBits, same_bits};

// What a payload has at most: payload_len has 16 bits (TS 102 773, clause 5.1).
const LONGEST_PAYLOAD: usize = 8_192;

const MOST_BITS: usize = 8 * LONGEST_PAYLOAD;

/// The parts of an L1-current, one behind another.
#[derive(Drop)]
pub struct HeldParts {
    bits: FixedBits<LONGEST_PAYLOAD>,
    // How many bits the first three parts have.
    pre: usize,
    conf: usize,
    dynamic: usize,
    ghost inside: { pre + conf + dynamic ≤ length bits },
    ghost room: { length bits ≤ MOST_BITS },
}

// Puts bits for which there is room.
fn put(sink: &mut FixedBits<LONGEST_PAYLOAD>, bits: &BitSlice<'_>)
    requires { length sink.old + length bits.now ≤ MOST_BITS }
    ensures { sink.new ≡ sink.old ++ bits.now }
{
    sink.put_slice(bits.sub(0, bits.len())).unwrap();
}

fn is_same(one: &BitSlice<'_>, other: &BitSlice<'_>) -> bool
    ensures { result ≡ pointwise beq one.now other.now }
{
    same_bits(one, other)
}

impl HeldParts {
    ghost use Rattle.std.specs.Prelude.{◌≡◌, ◌+◌, ◌≤◌, [], length};
    ghost use Rattle.frame_groups.specs.Tests.{same_parts};
    ghost use Rattle.open_group.specs.Parts.{parts_of};

    /// Room for the parts, of which there are none yet.
    pub fn new() -> HeldParts
        ensures { parts_of result ≡ record { pre = []; conf = []; dynamic = []; extension = [] } }
    {
        HeldParts {
            bits: FixedBits::new(),
            pre: 0,
            conf: 0,
            dynamic: 0,
        }
    }

    /// Holds other parts.
    pub fn hold(
        &mut self,
        pre: &BitSlice<'_>,
        conf: &BitSlice<'_>,
        dynamic: &BitSlice<'_>,
        extension: &BitSlice<'_>,
    )
        requires { length pre.now + length conf.now + length dynamic.now + length extension.now ≤ MOST_BITS }
        ensures parts { parts_of self.new ≡ record {
          pre = pre.now;
          conf = conf.now;
          dynamic = dynamic.now;
          extension = extension.now;
        } }
        ensures dynamic { self.new.dynamic ≡ length dynamic.now }
    {
        self.bits.clear();
        put(&mut self.bits, pre);
        put(&mut self.bits, conf);
        put(&mut self.bits, dynamic);
        put(&mut self.bits, extension);
        self.pre = pre.len();
        self.conf = conf.len();
        self.dynamic = dynamic.len();
    }

    /// L1-pre.
    pub fn pre(&self) -> BitSlice<'_>
        ensures { result ≡ (parts_of self.now).pre }
    {
        self.bits.as_slice().sub(0, self.pre)
    }

    /// The configurable part.
    pub fn conf(&self) -> BitSlice<'_>
        ensures { result ≡ (parts_of self.now).conf }
    {
        self.bits.as_slice().sub(self.pre, self.conf)
    }

    /// The dynamic part.
    pub fn dynamic(&self) -> BitSlice<'_>
        ensures value { result ≡ (parts_of self.now).dynamic }
        ensures len { length result ≡ self.now.dynamic }
    {
        self.bits.as_slice().sub(self.pre + self.conf, self.dynamic)
    }

    /// The extension.
    pub fn extension(&self) -> BitSlice<'_>
        ensures { result ≡ (parts_of self.now).extension }
    {
        let bits = self.bits.as_slice();
        let at = self.pre + self.conf + self.dynamic;
        bits.sub(at, bits.len() - at)
    }

    /// Whether these parts are held.
    pub fn is_same(
        &self,
        pre: &BitSlice<'_>,
        conf: &BitSlice<'_>,
        dynamic: &BitSlice<'_>,
        extension: &BitSlice<'_>,
    ) -> bool
        ensures { result ≡ same_parts (parts_of self.now) (record {
          pre = pre.now;
          conf = conf.now;
          dynamic = dynamic.now;
          extension = extension.now;
        }) }
    {
        is_same(&self.pre(), pre)
            && is_same(&self.conf(), conf)
            && is_same(&self.dynamic(), dynamic)
            && is_same(&self.extension(), extension)
    }
}
