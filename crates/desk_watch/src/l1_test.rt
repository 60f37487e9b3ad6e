// Whether the L1 signalling of a record is that of a network.

use bit_slice::{BitSlice, OutOfMemory};
use frame_groups::{Network, is_network_conf, is_pre, read_dynamic};
use l1_signal::{L1Dyn, MOST_POST_BYTES, PRE_BYTES, check_post, conf_len, dyn_len, post_len};
use plp_config::Plan;
use std::alloc::Global;

/// Tests L1 signalling by a network, with the memory that it needs.
#[derive(Drop)]
pub struct L1Test<'p> {
    network: Network<'p>,
    dynamic: L1Dyn,
}

impl<'p> L1Test<'p> {
    /// By the network of a plan.
    pub fn open(alloc: Global, plan: &'p Plan) -> Result<L1Test<'p>, OutOfMemory> {
        let network = Network::open(alloc, plan)?;
        let dynamic = L1Dyn::open(alloc, plan.config().plps.len() as u16)?;
        Ok(L1Test { network, dynamic })
    }

    /// Whether bytes are the L1-pre of the network, with its CRC_32.
    pub fn is_pre(&self, bytes: &[u8; PRE_BYTES]) -> bool {
        is_pre(self.network.plan(), &BitSlice::whole(bytes), true)
    }

    /// Whether the first bits are an L1-post of the network, of any of its frames: it has its length, its CRC_32, the
    /// configurable part of the network, and a dynamic part.
    pub fn is_post(&mut self, bytes: &[u8; MOST_POST_BYTES], bits: usize) -> bool {
        let plps = self.network.plan().config().plps.len();
        let all = BitSlice::whole(bytes);
        if bits != post_len(plps) || bits > all.len() {
            return false;
        }
        let conf = conf_len(plps);
        let post = all.sub(0, bits);
        check_post(post.sub(0, bits)).is_ok()
            && is_network_conf(&self.network, &post.sub(0, conf))
            && read_dynamic(&post.sub(conf, dyn_len(plps)), &mut self.dynamic)
    }
}
