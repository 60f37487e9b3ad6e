// The L1 signalling that all frames of a network share, as bits.
ghost use Rattle.std.specs.Prelude.{◌≡◌, ◌≤◌, length, IfOk};
ghost use Rattle.frame_writer.specs.Signalling.{pre_part, conf_part};
ghost use Rattle.l1_signal.specs.declared.lengths.TheConstants.{MOST_CONF_BITS, PRE_BITS};

use bit_slice::{BitBuf, FixedBits, OutOfMemory};
use l1_signal::{
    MOST_CONF_BITS, PRE_BITS, conf_law, conf_of, pre_law, pre_of, write_conf, write_pre,
};
use plp_config::Plan;
use std::alloc::Global;

// Bytes of L1-pre, without CRC_32.
const PRE_LEN: usize = PRE_BITS / 8;

/// What all frames share: L1-pre without CRC_32, and the configurable part of L1-post.
#[derive(Drop)]
pub struct Signalling {
    pub pre: FixedBits<PRE_LEN>,
    pub conf: BitBuf,
    ghost whole: { length pre ≡ PRE_BITS },
    ghost short: { length conf ≤ MOST_CONF_BITS },
}

// L1-pre.
#[tactic(auto, unfolding(crate::specs::Signalling::pre_part))]
fn pre_bits(plan: &Plan) -> FixedBits<PRE_LEN>
    ensures value { result ≡ pre_part plan.now }
    ensures len { length result ≡ PRE_BITS }
{
    pre_law();
    let mut bits = FixedBits::new();
    // There is room for it.
    write_pre(&mut bits, &pre_of(plan)).unwrap();
    bits
}

// The configurable part.
#[tactic(auto, unfolding(crate::specs::Signalling::conf_part, l1_signal::specs::L1Of::conf_of))]
fn conf_bits(alloc: Global, plan: &Plan) -> Result<BitBuf, OutOfMemory>
    ensures value { IfOk result (λ bits. bits ≡ conf_part plan.now) }
    ensures short { IfOk result (λ bits. length bits ≤ MOST_CONF_BITS) }
{
    conf_law();
    plan.rules_law();
    let conf = conf_of(alloc, plan)?;
    let mut bits = BitBuf::new(alloc);
    match write_conf(&mut bits, &conf) {
        Ok(()) => Ok(bits),
        Err(_) => Err(OutOfMemory),
    }
}

impl Signalling {
    ghost use Rattle.std.specs.Prelude.{◌≡◌, IfOk};

    /// That of the frames of a plan.
    pub fn open(alloc: Global, plan: &Plan) -> Result<Signalling, OutOfMemory>
        ensures pre { IfOk result (λ s. s.pre ≡ pre_part plan.now) }
        ensures conf { IfOk result (λ s. s.conf ≡ conf_part plan.now) }
    {
        Ok(Signalling {
            pre: pre_bits(plan),
            conf: conf_bits(alloc, plan)?,
        })
    }
}
