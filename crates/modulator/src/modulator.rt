// Bytes in, bytes of records out.
ghost use Rattle.std.specs.Prelude.{◌≡◌, ◌<◌, length, true};
ghost use Rattle.open_group.specs.FrameBytes.{bytes_left};
ghost use Rattle.modulator.specs.Modulating.{IsSettled, has_record};

use crate::modulating::Modulating;
use bit_slice::OutOfMemory;
use frame_groups::{Sequence, Waiting};
use open_group::PooledGroup;
use plp_config::Plan;
use std::alloc::Global;
use t2mi_stream::Unpiper;

/// Makes the records of T2 frames from a T2-MI stream, however it is cut and damaged: feed it, and take the bytes of
/// the record that waits, until none does. All its memory is taken in `open`.
#[derive(Drop)]
pub struct Modulator<'p> {
    inner: Modulating<'p>,
    ghost settled: { IsSettled inner },
    // Of the record that waits some bytes are left.
    ghost some: { has_record inner ≡ true → 0 < length (bytes_left inner.sequence.group) },
}

impl<'p> Modulator<'p> {
    ghost use Rattle.std.specs.Prelude.{◌≡◌, ◌<◌, ◌≤◌, ◌+◌, ◌⊎◌, ◌↔◌, ◌^◌, ◌++◌, ℕ, List, [], IfOk, IfSome, IfNone};
    ghost use Rattle.std.specs.Prelude.{length, take, drop, true, false};
    ghost use Rattle.terms.specs.Lists.{IsPrefix};
    ghost use Rattle.plp_config.specs.declared.moment.TheConstants.{MOST_FRAMES};
    ghost use Rattle.modulator.specs.StandsFor.{ModulatorStandsFor, WaitsAs, TakesOf, records_due, bytes_due};
    ghost use Rattle.modulator.specs.StandsFor.{config_of, is_finished, fed_of, next_of, is_waiting, left_of};

    /// A modulator of a network, to which nothing was fed.
    pub fn open(alloc: Global, plan: &'p Plan) -> Result<Modulator<'p>, OutOfMemory>
        ensures stands { IfOk result (λ m. ModulatorStandsFor m [] []) }
        ensures config { IfOk result (λ m. config_of m ≡ plan.now) }
        ensures next { IfOk result (λ m. next_of m ≡ 0) }
        ensures fed { IfOk result (λ m. fed_of m ≡ 0) }
        ensures finished { IfOk result (λ m. is_finished m ≡ false) }
    {
        let unpiper = Unpiper::open(alloc, plan.config().pid)?;
        let sequence = Sequence::new(PooledGroup::open(alloc, plan)?);
        Ok(Modulator {
            inner: Modulating {
                unpiper,
                sequence,
                finished: false,
            },
        })
    }

    /// Takes bytes until a record waits or the piece ends, and answers how many. No record with a number of 2^31 or
    /// more has waited, and with the piece fewer than 2^60 bytes were fed in all.
    pub fn feed(&mut self, piece: &[u8]) -> usize
        requires early { next_of self.old ≤ MOST_FRAMES }
        requires open { is_finished self.old ≡ false }
        requires room { fed_of self.old + length piece.now < 2 ^ 60 }
        ensures stands { (bytes taken : List ℕ) → ModulatorStandsFor self.old bytes taken
            → ModulatorStandsFor self.new (bytes ++ take result piece.now) taken }
        // It does not go past the byte with which a record waits.
        ensures first { (k : ℕ) → k < result → (bytes taken : List ℕ) → ModulatorStandsFor self.old bytes taken
            → bytes_due (config_of self.old) false (bytes ++ take k piece.now) ≡ taken }
        ensures inside { result ≤ length piece.now }
        ensures none { (result ≡ 0) ↔ ((is_waiting self.old ≡ true) ⊎ (length piece.now ≡ 0)) }
        // It stops before the piece ends only if a record waits.
        ensures stops { result < length piece.now → is_waiting self.new ≡ true }
        ensures next { (next_of self.new ≡ next_of self.old) ⊎ (next_of self.new < MOST_FRAMES) }
        ensures fed { fed_of self.new ≡ fed_of self.old + result }
        ensures finished { is_finished self.new ≡ false }
        ensures config { config_of self.new ≡ config_of self.old }
    {
        if self.inner.waiting().is_some() {
            return 0;
        }
        let inner = &mut self.inner;
        let count = inner.feed(piece);
        inner.begin_next();
        count
    }

    /// No more bytes come: the last group is closed.
    pub fn finish(&mut self)
        requires open { is_finished self.old ≡ false }
        ensures stands { (bytes taken : List ℕ) → ModulatorStandsFor self.old bytes taken
            → ModulatorStandsFor self.new bytes taken }
        ensures finished { is_finished self.new ≡ true }
        ensures next { (next_of self.new ≡ next_of self.old) ⊎ (next_of self.new < MOST_FRAMES) }
        ensures fed { fed_of self.new ≡ fed_of self.old }
        ensures config { config_of self.new ≡ config_of self.old }
    {
        let inner = &mut self.inner;
        if inner.sequence.progress.waiting().is_some() {
            inner.finish();
            return;
        }
        inner.finish();
        inner.begin_next();
    }

    /// The record that waits: the number of its frame, and why it is muted if it is.
    pub fn waiting(&self) -> Option<Waiting>
        ensures some { IfSome result (λ w. (is_waiting self.now ≡ true) × (w.frame ≡ next_of self.now)
            × ((bytes taken : List ℕ) → ModulatorStandsFor self.now bytes taken
            → WaitsAs (config_of self.now) (is_finished self.now) bytes taken w)) }
        ensures none { IfNone result ((is_waiting self.now ≡ false)
            × ((bytes taken : List ℕ) → ModulatorStandsFor self.now bytes taken
            → bytes_due (config_of self.now) (is_finished self.now) bytes ≡ taken)) }
    {
        self.inner.waiting()
    }

    /// Whether a group joined: one that is closed, with frame_idx 0, which passes as the frame that its timestamp
    /// names. From then on records are due, and before none.
    pub fn joined(&self) -> bool
        ensures yes { result ≡ true → (bytes taken : List ℕ) → ModulatorStandsFor self.now bytes taken
            → 0 < length (records_due (config_of self.now) (is_finished self.now) bytes) }
        ensures no { result ≡ false → (bytes taken : List ℕ) → ModulatorStandsFor self.now bytes taken
            → records_due (config_of self.now) (is_finished self.now) bytes ≡ [] }
    {
        self.inner.joined()
    }

    /// Gives the next bytes of the record that waits. The next one may wait at once.
    pub fn take(&mut self, out: &mut [u8]) -> usize
        ensures most { result ≤ length out.old }
        ensures front { (bytes taken : List ℕ) → ModulatorStandsFor self.old bytes taken
            → IsPrefix (taken ++ take result out.new) (bytes_due (config_of self.old) (is_finished self.old) bytes) }
        ensures stands { (bytes taken : List ℕ) → ModulatorStandsFor self.old bytes taken
            → ModulatorStandsFor self.new bytes (taken ++ take result out.new) }
        // It does not go past the end of that record.
        ensures within { is_waiting self.old ≡ true → (bytes taken : List ℕ) → ModulatorStandsFor self.old bytes taken
            → TakesOf (config_of self.old) (is_finished self.old) bytes taken (next_of self.old) result }
        ensures stays { (length out.new ≡ length out.old) × (drop result out.new ≡ drop result out.old) }
        ensures none { (result ≡ 0) ↔ ((is_waiting self.old ≡ false) ⊎ (length out.old ≡ 0)) }
        // So a loop that takes until it gives none ends.
        ensures left { 0 < result → left_of self.new < left_of self.old }
        ensures next { (next_of self.new ≡ next_of self.old)
            ⊎ ((next_of self.new ≡ next_of self.old + 1) ⊎ (next_of self.new < MOST_FRAMES)) }
        ensures finished { is_finished self.new ≡ is_finished self.old }
        ensures fed { fed_of self.new ≡ fed_of self.old }
        ensures config { config_of self.new ≡ config_of self.old }
    {
        if self.inner.waiting().is_none() {
            return 0;
        }
        let inner = &mut self.inner;
        let sequence = &mut inner.sequence;
        let count = sequence.group.take(out);
        if sequence.group.is_taken() {
            inner.gave();
            inner.begin_next();
        }
        count
    }
}
