// Reading L1 signalling, and whether it is that of a network and a frame.
ghost use Rattle.std.specs.Prelude.{◌≡◌, ◌<◌, nat_eq, Some, None, length, map, slice_index_or, if◌then◌else◌};
ghost use Rattle.std.specs.Cmp.Lexicographic.{pointwise};
ghost use Rattle.l1_signal.specs.declared.dyn_plp.DynPlp.{DynPlp};
ghost use Rattle.l1_signal.specs.L1Configurable.{conf_read, info_size};
ghost use Rattle.l1_signal.specs.L1Dynamic.{dyn_read};
ghost use Rattle.l1_signal.specs.L1Of.{told_shape};
ghost use Rattle.l1_signal.specs.L1Pre.{pre_rows, pre_reading};
ghost use Rattle.frame_groups.specs.Tests.{read_whole, same_told, pre_agrees, conf_agrees, dyn_agrees};

use crate::network::Network;
use crate::test_laws::parts_law;
use bit_slice::{BitReader, BitSlice, BitSource};
use l1_signal::{L1Dyn, L1Pre, is_conf, pre_of, read_dyn, read_pre, shape_of};
use plp_config::Plan;
use scheduler::Shape;

// The L1-pre that bits are, `with_crc` with its CRC_32.
fn read_whole_pre(bits: &BitSlice<'_>, with_crc: bool) -> Option<L1Pre>
    ensures { result ≡ read_whole (pre_reading with_crc bits.now) }
{
    let mut source = BitReader::new(bits.sub(0, bits.len()));
    let Ok(pre) = read_pre(&mut source, with_crc) else {
        return None;
    };
    if source.take(1).is_ok() {
        return None;
    }
    Some(pre)
}

fn is_same_pre(one: &L1Pre, other: &L1Pre) -> bool
    ensures { result ≡ same_told pre_rows one.now other.now }
{
    parts_law();
    one == other
}

/// Whether bits are the plan's L1-pre, `with_crc` with its CRC_32.
pub fn is_pre(plan: &Plan, bits: &BitSlice<'_>, with_crc: bool) -> bool
    ensures { result ≡ pre_agrees plan.now (read_whole (pre_reading with_crc bits.now)) }
{
    match read_whole_pre(bits, with_crc) {
        Some(pre) => is_same_pre(&pre, &pre_of(plan)),
        None => false,
    }
}

/// Whether bits are the network's configurable part.
pub fn is_network_conf(network: &Network<'_>, bits: &BitSlice<'_>) -> bool
    ensures { result ≡ conf_agrees network.now (read_whole (conf_read (info_size (length network.now.plps)) bits.now)) }
{
    parts_law();
    is_conf(bits.sub(0, bits.len()), network.conf())
}

/// Gives `out` the dynamic part that bits are. `false` if they are none.
pub fn read_dynamic(bits: &BitSlice<'_>, out: &mut L1Dyn) -> bool
    ensures value { read_whole (dyn_read (length out.old.plps) bits.now) ≡ (if result then Some out.new else None) }
    ensures len { length out.new.plps ≡ length out.old.plps }
{
    let mut source = BitReader::new(bits.sub(0, bits.len()));
    if read_dyn(&mut source, out).is_err() {
        return false;
    }
    source.take(1).is_err()
}

/// Gives `out` the shape that a dynamic part tells.
#[tactic(auto, unfolding(l1_signal::specs::L1Of::told_shape))]
pub fn tell_shape(dynamic: &L1Dyn, out: &mut Shape)
    requires { length out.old.counts ≡ length dynamic.now.plps }
    ensures shape { out.new ≡ told_shape dynamic.now }
    ensures len { length out.new.counts ≡ length dynamic.now.plps }
{
    shape_of(dynamic, out);
}

// Whether the PLPs of a dynamic part are those of the plan, in order.
fn has_ids(plan: &Plan, dynamic: &L1Dyn) -> bool
    requires { length dynamic.now.plps ≡ length plan.now.plps }
    ensures { result ≡ pointwise nat_eq (map (λ plp. plp.plp_id) dynamic.now.plps) (map (λ plp. plp.id) plan.now.plps) }
{
    for plp in 0..dynamic.plps.len() {
        if told_id(dynamic, plp) != plan.plp_id(plp) {
            return false;
        }
    }
    true
}

fn told_id(dynamic: &L1Dyn, plp: usize) -> u8
    requires { plp < length dynamic.now.plps }
    ensures { (d : DynPlp) → result ≡ (slice_index_or dynamic.now.plps plp d).plp_id }
{
    dynamic.plps.get(plp).unwrap().plp_id
}

/// Whether a dynamic part is one of a frame, with the plan's PLPs in order.
pub fn is_of_frame(plan: &Plan, number: u64, dynamic: &L1Dyn) -> bool
    requires { length dynamic.now.plps ≡ length plan.now.plps }
    ensures { result ≡ dyn_agrees plan.now number (Some dynamic.now) }
{
    dynamic.frame_idx == plan.frame_idx(number) && has_ids(plan, dynamic)
}
