// Shapes and cell maps, by a plan. Counts and starts are numbers joined by commas, one for each PLP.
//
// `shape NETWORK COUNTS` is where the PLPs stand. Of the frame with a number in its superframe, `map NETWORK FRAME
// COUNTS STARTS INTERVAL` is what is wrong with its shape, or a digest of its cells: from 0 on, for each address, 31
// times the digest before, plus 0 for a dummy cell, else plus 1, the cell's number and 65,536 times its block's. It is
// taken in the order of addresses, address by address, and of the words of a record, which have to be one. `cell
// NETWORK FRAME COUNTS STARTS INTERVAL PLP BLOCK CELL` is where a cell stands.
ghost use Rattle.std.specs.Prelude.{◌≡◌, length, IsTrue};
ghost use Rattle.cell_map.specs.CellMap.{Passes};
ghost use Rattle.scheduler.specs.Laws.{CountsFit};

use crate::words::{Words, number_8, number_16, number_32};
use byteorder::{BigEndian, ByteOrder};
use cell_map::{Cell, Cells, address, at, check};
use plp_config::Plan;
use scheduler::{Shape, shape};
use site_frame::fill_words;
use std::alloc::{AllocError, Global};

// How many words are taken at once.
const PIECE: u32 = 2048;

pub(crate) fn counts_of(alloc: Global, word: &str) -> Result<Vec<u16>, AllocError> {
    let mut counts = Vec::new(alloc);
    for text in word.split(',') {
        counts.push(number_16(text))?;
    }
    Ok(counts)
}

// Whether a frame can have so many blocks.
pub(crate) fn can_have(plan: &Plan, counts: &[u16]) -> bool
    ensures { IsTrue result → CountsFit plan.now counts.now }
{
    if counts.len() != plan.config().plps.len() {
        return false;
    }
    for plp in 0..counts.len() {
        if counts[plp] > plan.config().plps.get(plp).unwrap().blocks {
            return false;
        }
    }
    true
}

fn told_shape(alloc: Global, shape: &Shape) -> Result<String, AllocError> {
    let mut told = format!(in alloc;
        "interval={} type2={} starts=",
        shape.interval(),
        shape.type2_start()
    )?;
    for plp in 0..shape.len() {
        told.push_str(format!(in alloc; "{},", shape.start(plp))?.as_str())?;
    }
    Ok(told)
}

fn shaped(alloc: Global, plan: &Plan, words: &Words<'_>) -> Result<String, AllocError> {
    let counts = counts_of(alloc, words.word(2))?;
    let Ok(mut out) = Shape::open(alloc, plan) else {
        return Err(AllocError);
    };
    if !can_have(plan, counts.as_slice()) {
        return format!(in alloc; "none");
    }
    shape(plan, counts.as_slice(), &mut out);
    told_shape(alloc, &out)
}

// The shape that the words from the third on spell.
fn shape_of(alloc: Global, plan: &Plan, words: &Words<'_>) -> Result<Shape, AllocError> {
    let Ok(mut shape) = Shape::open(alloc, plan) else {
        return Err(AllocError);
    };
    let places = words.word(3).split(',').zip(words.word(4).split(','));
    for (plp, (count, start)) in places.enumerate() {
        if plp < shape.len() {
            shape.set(plp, number_16(count), number_32(start));
        }
    }
    shape.set_type2(number_32(words.word(5)), 0);
    Ok(shape)
}

fn value_of(cell: Option<Cell>) -> u64 {
    match cell {
        Some(cell) => 1 + u64::from(cell.ordinal) * 65_536 + u64::from(cell.cell),
        None => 0,
    }
}

// A digest with one value more.
fn with_value(digest: u64, value: u64) -> u64 {
    digest.wrapping_mul(31).wrapping_add(value)
}

fn digest_in_order(plan: &Plan, shape: &Shape, frame_idx: u8) -> u64
    requires plps { length shape.now.counts ≡ length plan.now.plps }
    requires passes { Passes plan.now shape.now }
{
    let mut cells = Cells::new(plan, shape, frame_idx);
    let mut digest = 0;
    for _ in 0..plan.config().cells {
        if cells.left() > 0 {
            digest = with_value(digest, value_of(cells.next_cell()));
        }
    }
    digest
}

fn digest_by_address(plan: &Plan, shape: &Shape, frame_idx: u8) -> u64
    requires plps { length shape.now.counts ≡ length plan.now.plps }
    requires passes { Passes plan.now shape.now }
{
    let mut digest = 0;
    for address in 0..plan.config().cells {
        digest = with_value(digest, value_of(at(plan, shape, frame_idx, address)));
    }
    digest
}

// The value of the cell of a word.
fn value_of_word(word: u32) -> u64 {
    if word == u32::MAX {
        return 0;
    }
    1 + u64::from(word / 32_768) * 65_536 + u64::from(word % 32_768)
}

// A digest with the cells of some words more.
fn with_words(digest: u64, words: &[u8]) -> u64 {
    let mut digest = digest;
    for word in words.chunks_exact(4) {
        digest = with_value(digest, value_of_word(BigEndian::read_u32(word)));
    }
    digest
}

fn digest_by_words(
    alloc: Global,
    plan: &Plan,
    shape: &Shape,
    frame_idx: u8,
) -> Result<u64, AllocError>
    requires plps { length shape.now.counts ≡ length plan.now.plps }
    requires passes { Passes plan.now shape.now }
{
    let cells = plan.config().cells;
    let mut digest = 0;
    for k in 0..cells.div_ceil(PIECE) {
        let count = (cells - k * PIECE).min(PIECE);
        let mut words = vec![in alloc; 0; 4 * count as usize]?;
        fill_words(plan, shape, frame_idx, k * PIECE, count, &mut words);
        digest = with_words(digest, words.as_slice());
    }
    Ok(digest)
}

fn digest(alloc: Global, plan: &Plan, shape: &Shape, frame_idx: u8) -> Result<String, AllocError>
    requires plps { length shape.now.counts ≡ length plan.now.plps }
    requires passes { Passes plan.now shape.now }
{
    let digest = digest_in_order(plan, shape, frame_idx);
    let by_address = digest_by_address(plan, shape, frame_idx);
    let by_words = digest_by_words(alloc, plan, shape, frame_idx)?;
    if digest == by_address && digest == by_words {
        format!(in alloc; "{digest}")
    } else {
        format!(in alloc; "{digest}, {by_address}, {by_words}")
    }
}

fn mapped(alloc: Global, plan: &Plan, words: &Words<'_>) -> Result<String, AllocError> {
    let shape = shape_of(alloc, plan, words)?;
    if shape.len() != plan.config().plps.len() {
        return format!(in alloc; "none");
    }
    match check(plan, &shape) {
        Ok(()) => digest(alloc, plan, &shape, number_8(words.word(2))),
        Err(fault) => format!(in alloc; "{fault:?}"),
    }
}

// Where a cell stands in a frame, and what stands there.
fn stands(
    alloc: Global,
    plan: &Plan,
    shape: &Shape,
    words: &Words<'_>,
) -> Result<String, AllocError>
    requires plps { length shape.now.counts ≡ length plan.now.plps }
    requires passes { Passes plan.now shape.now }
{
    let (frame_idx, plp) = (number_8(words.word(2)), words.number(6));
    let (block, cell) = (number_32(words.word(7)), number_32(words.word(8)));
    if plp >= shape.len() || block >= u32::from(shape.count(plp)) || cell >= plan.block_cells(plp) {
        return format!(in alloc; "no such cell");
    }
    let Some(found) = address(plan, shape, frame_idx, plp, block, cell) else {
        return format!(in alloc; "in another frame");
    };
    match at(plan, shape, frame_idx, found) {
        Some(cell) => format!(in alloc; "{found}: block {} cell {}", cell.ordinal, cell.cell),
        None => format!(in alloc; "{found}: dummy"),
    }
}

fn placed(alloc: Global, plan: &Plan, words: &Words<'_>) -> Result<String, AllocError> {
    let shape = shape_of(alloc, plan, words)?;
    if shape.len() != plan.config().plps.len() || check(plan, &shape).is_err() {
        return format!(in alloc; "none");
    }
    stands(alloc, plan, &shape, words)
}

/// What a call answers.
pub(crate) fn answer(alloc: Global, plan: &Plan, words: &Words<'_>) -> Result<String, AllocError> {
    match words.verb() {
        "shape" => shaped(alloc, plan, words),
        "map" => mapped(alloc, plan, words),
        _ => placed(alloc, plan, words),
    }
}
