// The queue of a PLP, by a plan.
//
// `queue NETWORK PLP FRAMES COUNT` gives a chain COUNT packets and null packets behind them, each before the first
// frame that begins when its slot is over, and tells of each interleaving frame from 0 to FRAMES how many blocks it
// has, how many bytes wait then, and the CRC-32 of the blocks.
ghost use Rattle.std.specs.Prelude.{◌≡◌, ◌<◌, ◌≤◌, length};
ghost use Rattle.mode_adapt.specs.StandsFor.{slot_of};

use crate::words::Words;
use bit_slice::{BitSlice, OutOfMemory, crc32};
use linked_pool::{BlockRef, Pool, PoolFull, frame_chunks};
use mode_adapt::Chain;
use plp_config::Plan;
use std::alloc::{AllocError, Global};
use std::marker::Model;
use ts_packet::TsPacket;

// A chain with the slot of its next packet.
//
// The contracts of a chain are large, and what calls it has all that they say in its own proof. So its model tells
// nothing.
#[derive(Drop)]
struct Queue {
    alloc: Global,
    chain: Chain,
    pool: Pool,
    slot: u64,
}

impl Model for Queue {
    ghost Value = { Unit };

    ghost view = { λ _. tt };

    ghost invariant = { λ q. (1 ≤ length q.pool.lists) × (slot_of q.chain ≡ q.slot) };
}

// The packet of a slot: null from a slot on.
fn packet(slot: u64, count: u64) -> TsPacket {
    let mut bytes = *TsPacket::canonical().as_array();
    if slot < count {
        bytes[2] = 0xFE;
        bytes[4] = (slot % 256) as u8;
    }
    TsPacket::from_array(bytes)
}

fn push_block(bytes: &mut Vec<u8>, alloc: Global, block: &BlockRef<'_>) -> Result<(), AllocError> {
    let mut own = Vec::new(alloc);
    own.resize(block.len(), 0)?;
    block.copy_to(own.as_mut_slice());
    bytes.extend_from_slice(own.as_slice())
}

// The CRC-32 of some bytes, fewer than there can be bits of.
fn sum_of(bytes: &[u8]) -> u32 {
    crc32(BitSlice::whole(&bytes[..bytes.len().min(1 << 30)]))
}

impl Queue {
    fn open(alloc: Global, plan: &Plan, plp: usize) -> Result<Queue, OutOfMemory>
        requires { plp < length plan.now.plps }
    {
        Ok(Queue {
            alloc,
            chain: Chain::open(alloc, plan, plp)?,
            pool: Pool::open(alloc, frame_chunks(plan), 1)?,
            slot: 0,
        })
    }

    // Gives the packets of the slots up to one.
    fn fill(&mut self, end: u64, count: u64) -> Result<(), PoolFull> {
        for slot in self.slot..end.min(1 << 40) {
            self.offer(&packet(slot, count))?;
        }
        Ok(())
    }

    fn offer(&mut self, packet: &TsPacket) -> Result<(), PoolFull> {
        if self.slot < 1 << 54 {
            let put = self.chain.offer(packet, &mut self.pool, 0);
            self.slot += 1;
            put?;
        }
        Ok(())
    }

    fn cut(&mut self) -> Result<u32, PoolFull> {
        self.chain.cut(&mut self.pool, 0)
    }

    fn backlog(&self) -> u32 {
        self.chain.backlog()
    }

    // The CRC-32 of the blocks, of which none stays.
    fn take(&mut self) -> Result<u32, AllocError> {
        let mut bytes = Vec::new(self.alloc);
        for place in 0..self.pool.count(0) {
            if let Some(block) = self.pool.block(0, place) {
                push_block(&mut bytes, self.alloc, &block)?;
            }
        }
        self.pool.clear(0);
        Ok(sum_of(bytes.as_slice()))
    }

    // What is told of the interleaving frame that ends when the slots up to one are over.
    fn frame(&mut self, end: u64, count: u64) -> Result<String, AllocError> {
        if let Err(full) = self.fill(end, count) {
            return format!(in self.alloc; "{full:?} ");
        }
        match self.cut() {
            Ok(blocks) => {
                let (backlog, sum) = (self.backlog(), self.take()?);
                format!(in self.alloc; "{blocks}:{backlog}:{sum:08x} ")
            }
            Err(full) => format!(in self.alloc; "{full:?} "),
        }
    }
}

/// What a call answers.
pub(crate) fn answer(alloc: Global, plan: &Plan, words: &Words<'_>) -> Result<String, AllocError> {
    let plp = words.number(2);
    if plp >= plan.config().plps.len() {
        return format!(in alloc; "none");
    }
    let Ok(mut queue) = Queue::open(alloc, plan, plp) else {
        return Err(AllocError);
    };
    let (frames, epoch) = (words.number(3).min(1000) as u64, plan.epoch_ticks(plp));
    let mut told = String::new(alloc);
    for frame in 0..=frames {
        let end = plan.slots_by(plp, frame.saturating_mul(epoch));
        told.push_str(queue.frame(end, words.number(4) as u64)?.as_str())?;
    }
    told.push_str("all")?;
    Ok(told)
}
