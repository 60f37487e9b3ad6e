// What is taken of the bytes of a block (EN 302 755, clause 5.1.7).
ghost use Rattle.std.specs.Prelude.{◌≡◌, ◌↔◌, ◌==◌, ◌+◌, ◌/◌, ◌≤◌, ◌<◌, ◌^◌, IsTrue, IfSome, length, take, drop, None};
ghost use Rattle.std.specs.Prelude.{Some, if◌then◌else◌};
ghost use Rattle.terms.specs.Bits.{bits_of};
ghost use Rattle.bb_frame.specs.declared.header.TheConstants.{NO_START, HEADER_BYTES};
ghost use Rattle.plp_receiver.specs.Strings.{Block};
ghost use Rattle.plp_receiver.specs.TakenBlocks.{block_of, IsPlace};
ghost use Rattle.plp_receiver.specs.Taken.{IsOfStream, IsTaken};

use crate::block::TakenBlock;
use bb_frame::{HEADER_BYTES, NO_START, bit_counts_law, read_frame};
use bit_slice::BitSlice;

// Whether MATYPE-1 is that of a transport stream with ISSY, with null packets deleted or not.
fn is_of_stream(matype1: u8, deletes: bool) -> bool
    ensures { IsTrue result ↔ IsOfStream deletes matype1 }
{
    matype1 / 64 == 3 && matype1 / 8 % 2 == 1 && matype1 / 4 % 2 == u8::from(deletes)
}

// Where the first user packet begins.
fn first_of(syncd: u16) -> Option<usize>
    ensures { result ≡ (if syncd == NO_START then None else Some (syncd / 8)) }
{
    if syncd == NO_START {
        None
    } else {
        Some(usize::from(syncd) / 8)
    }
}

// The data field, DFL bits.
fn field_of(block: &[u8], dfl: u16) -> &[u8]
    requires { HEADER_BYTES + dfl / 8 ≤ length block.now }
    ensures { result.now ≡ take (dfl / 8) (drop HEADER_BYTES block.now) }
{
    &block[HEADER_BYTES..HEADER_BYTES + usize::from(dfl) / 8]
}

/// What is taken of a block, which is scrambled no more.
pub fn taken_block(block: &[u8], deletes: bool) -> Option<TakenBlock<'_>>
    requires least { HEADER_BYTES ≤ length block.now }
    requires most { length block.now < 2 ^ 60 }
    ensures some { IfSome result (λ b. IsTaken deletes (bits_of block.now) (block_of b)) }
    ensures places { IfSome result (λ b. IsPlace b.first (length b.field.now)) }
    ensures none { result ≡ None → (b : Block) → ¬ (IsTaken deletes (bits_of block.now) b) }
{
    bit_counts_law();
    let Ok(view) = read_frame(BitSlice::whole(block)) else {
        return None;
    };
    let header = view.header;
    if !is_of_stream(header.matype1, deletes) {
        return None;
    }
    Some(TakenBlock {
        first: first_of(header.syncd),
        issy: header.issy,
        field: field_of(block, header.dfl),
    })
}
