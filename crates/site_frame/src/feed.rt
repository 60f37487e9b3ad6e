// The bytes of a file of records, as they come.
ghost use Rattle.std.specs.Prelude.{◌≡◌, ◌≢◌, ◌↔◌, ◌<◌, ◌≤◌, ◌+◌, ◌^◌, length, take, vec_len, vec_capacity, IsTrue};
ghost use Rattle.std.specs.Prelude.{IfOk};
ghost use Rattle.std.specs.Prelude.{IfErr, Ok, Err};
ghost use Rattle.site_frame.specs.declared.head.TheConstants.{HEAD};
ghost use Rattle.site_frame.specs.declared.coming.Coming.TheVariants.{Head, Rest, Whole, Finished};

use crate::begin::begin;
use crate::coming::Coming;
use crate::fault::RecordWhy;
use crate::head::{GREATEST_REST, HEAD};
use crate::head_part::HeadPart;
use crate::reading::{RecordView, read_record};
use bit_slice::OutOfMemory;
use std::alloc::Global;

/// What came of a file of records: how many of them were accepted, and what stands behind these.
#[derive(Drop)]
pub struct RecordFeed {
    coming: Coming,
    // All bytes that came, and the records that were accepted.
    at: u64,
    count: u64,
    // What came of the head under way, and of the record whose head came.
    head: HeadPart,
    bytes: Vec<u8>,
    // How many bytes are lacking of the head, or of the record.
    left: usize,
    ghost counted: { count ≤ at },
    ghost begun: { (coming ≡ Rest → count < at) × (coming ≡ Whole → count < at) },
    ghost lacks: { coming ≡ Head → (0 < left) × (length head + left ≡ HEAD) },
    ghost room: { coming ≡ Rest → (0 < left) × (vec_len bytes + left ≤ vec_capacity bytes) },
    ghost whole: { coming ≡ Whole → left ≡ 0 },
}

impl RecordFeed {
    ghost use Rattle.std.specs.Prelude.{ℕ, Bool, true, false, List, [], ◌∷◌, ◌++◌};
    ghost use Rattle.site_frame.specs.Whole.{BeginsWith, Refuses};
    ghost use Rattle.site_frame.specs.declared.fault.RecordWhy.{RecordWhy};
    ghost use Rattle.site_frame.specs.declared.reading.RecordView.{RecordView};
    ghost use Rattle.site_frame.specs.FeedStandsFor.{RecordFeedStandsFor, NeverLacksRoom, coming_of, count_of, came_of};
    ghost use Rattle.site_frame.specs.FeedStandsFor.{left_of, lacks_of};
    ghost use Rattle.site_frame.specs.FeedStandsFor.{record_of, IsOver, Takes};

    /// Nothing came. It takes no memory: that of a record is taken once its head is there.
    pub fn new(alloc: Global) -> RecordFeed
        ensures stands { RecordFeedStandsFor result [] [] false }
        ensures coming { coming_of result ≡ Head }
        ensures left { left_of result ≡ HEAD }
        ensures came { came_of result ≡ 0 }
    {
        RecordFeed {
            coming: Coming::Head,
            at: 0,
            count: 0,
            head: HeadPart::new(),
            bytes: Vec::new(alloc),
            left: HEAD,
        }
    }

    /// Nothing came. It takes the memory of the greatest record.
    pub fn open(alloc: Global) -> Result<RecordFeed, OutOfMemory>
        ensures stands { IfOk result (λ f. RecordFeedStandsFor f [] [] false) }
        ensures coming { IfOk result (λ f. coming_of f ≡ Head) }
        ensures left { IfOk result (λ f. left_of f ≡ HEAD) }
        ensures came { IfOk result (λ f. came_of f ≡ 0) }
        ensures room { IfOk result NeverLacksRoom }
    {
        let bytes = Vec::with_capacity(alloc, HEAD + GREATEST_REST)?;
        Ok(RecordFeed {
            coming: Coming::Head,
            at: 0,
            count: 0,
            head: HeadPart::new(),
            bytes,
            left: HEAD,
        })
    }

    /// What comes next.
    pub fn coming(&self) -> Coming
        ensures { result ≡ coming_of self.now }
    {
        self.coming
    }

    /// Whether a record has come whole, and waits to be looked at.
    pub fn is_whole(&self) -> bool
        ensures { IsTrue result ↔ (coming_of self.now ≡ Whole) }
    {
        self.coming == Coming::Whole
    }

    /// How many records were accepted.
    pub fn count(&self) -> u64
        ensures { result ≡ count_of self.now }
    {
        self.count
    }

    /// How many bytes it takes at most before it looks at a head, or a record is whole: 0 if nothing more is taken.
    pub fn lacks(&self) -> usize
        ensures { result ≡ lacks_of self.now }
    {
        match self.coming {
            Coming::Head | Coming::Rest => self.left,
            Coming::Whole | Coming::Refused(_) | Coming::NoRoom | Coming::Finished => 0,
        }
    }

    // Takes bytes of a head, and behind the last of them begins its record: how many.
    fn take_head(&mut self, bytes: &[u8]) -> usize
        requires coming { coming_of self.old ≡ Head }
        requires some { 0 < length bytes.now }
        requires few { came_of self.old + length bytes.now < 2 ^ 64 }
        ensures count { (0 < result) × (result ≤ length bytes.now) × (result ≤ left_of self.old) }
        ensures stands { Takes self.old self.new (take result bytes.now) }
        ensures accepted { count_of self.new ≡ count_of self.old }
        ensures came { came_of self.new ≡ came_of self.old + result }
        ensures left { left_of self.old ≤ result + left_of self.new }
        ensures whole { coming_of self.new ≡ Whole → left_of self.new ≡ 0 }
        ensures unfinished { coming_of self.new ≢ Finished }
        ensures room { NeverLacksRoom self.old → NeverLacksRoom self.new }
    {
        let count = self.head.take(bytes);
        self.at += count as u64;
        self.left -= count;
        if self.left == 0 {
            let head = self.head.whole();
            self.head.clear();
            let (coming, left) = begin(&head, &mut self.bytes);
            self.coming = coming;
            self.left = left;
        }
        count
    }

    // Takes bytes of the rest of a record: how many.
    fn take_rest(&mut self, bytes: &[u8]) -> usize
        requires coming { coming_of self.old ≡ Rest }
        requires some { 0 < length bytes.now }
        requires few { came_of self.old + length bytes.now < 2 ^ 64 }
        ensures count { (0 < result) × (result ≤ length bytes.now) × (result ≤ left_of self.old) }
        ensures stands { Takes self.old self.new (take result bytes.now) }
        ensures accepted { count_of self.new ≡ count_of self.old }
        ensures came { came_of self.new ≡ came_of self.old + result }
        ensures left { left_of self.old ≤ result + left_of self.new }
        ensures whole { coming_of self.new ≡ Whole → left_of self.new ≡ 0 }
        ensures unfinished { coming_of self.new ≢ Finished }
        ensures room { NeverLacksRoom self.old → NeverLacksRoom self.new }
    {
        let count = self.left.min(bytes.len());
        self.bytes.extend_from_slice(&bytes[..count]).unwrap();
        self.at += count as u64;
        self.left -= count;
        if self.left == 0 {
            self.coming = Coming::Whole;
        }
        count
    }

    /// Takes bytes from the front of these, a byte at least and no more than are lacking: how many.
    pub fn feed(&mut self, bytes: &[u8]) -> usize
        requires wants { 0 < lacks_of self.old }
        requires some { 0 < length bytes.now }
        requires few { came_of self.old + length bytes.now < 2 ^ 64 }
        ensures count { (0 < result) × (result ≤ length bytes.now) × (result ≤ left_of self.old) }
        ensures stands { Takes self.old self.new (take result bytes.now) }
        ensures accepted { count_of self.new ≡ count_of self.old }
        ensures came { came_of self.new ≡ came_of self.old + result }
        // What it did not take is lacking still, or more is, of what comes then.
        ensures left { left_of self.old ≤ result + left_of self.new }
        ensures whole { coming_of self.new ≡ Whole → left_of self.new ≡ 0 }
        ensures unfinished { coming_of self.new ≢ Finished }
        ensures room { NeverLacksRoom self.old → NeverLacksRoom self.new }
    {
        if self.coming == Coming::Rest {
            return self.take_rest(bytes);
        }
        self.take_head(bytes)
    }

    /// The file has ended behind the bytes that came.
    pub fn finish(&mut self)
        requires wants { 0 < lacks_of self.old }
        ensures stands { (views : List RecordView) (came : List ℕ) (ended : Bool)
            → RecordFeedStandsFor self.old views came ended
            → RecordFeedStandsFor self.new views came true }
        ensures over { IsOver (coming_of self.new) }
        ensures whole { coming_of self.new ≢ Whole }
        ensures count { count_of self.new ≡ count_of self.old }
        ensures came { came_of self.new ≡ came_of self.old }
        ensures left { left_of self.new ≡ left_of self.old }
        ensures room { NeverLacksRoom self.old → NeverLacksRoom self.new }
    {
        if self.coming == Coming::Rest {
            self.coming = Coming::Refused(RecordWhy::Length);
        } else if self.left == HEAD {
            self.coming = Coming::Finished;
        } else {
            self.coming = Coming::Refused(RecordWhy::Head);
        }
    }

    /// Looks at the record that has come whole.
    pub fn record(&self) -> Result<RecordView<'_>, RecordWhy>
        requires whole { coming_of self.now ≡ Whole }
        ensures ok { IfOk result (λ view. (len : ℕ) × BeginsWith (record_of self.now) view len) }
        ensures every { (view : RecordView) (len : ℕ) → BeginsWith (record_of self.now) view len → result ≡ Ok view }
        ensures err { IfErr result (Refuses (record_of self.now)) }
        ensures refused { (why : RecordWhy) → Refuses (record_of self.now) why → result ≡ Err why }
    {
        match read_record(&self.bytes) {
            Ok((view, _)) => Ok(view),
            Err(why) => Err(why),
        }
    }

    /// Its owner accepts the record that has come whole. A head comes next.
    pub fn accept(&mut self)
        requires whole { coming_of self.old ≡ Whole }
        ensures stands { (views : List RecordView) (came : List ℕ) (ended : Bool) (view : RecordView) (len : ℕ)
            → RecordFeedStandsFor self.old views came ended → BeginsWith (record_of self.old) view len
            → RecordFeedStandsFor self.new (views ++ view ∷ []) came ended }
        ensures coming { coming_of self.new ≡ Head }
        ensures left { left_of self.new ≡ HEAD }
        ensures count { count_of self.new ≡ count_of self.old + 1 }
        ensures came { came_of self.new ≡ came_of self.old }
        ensures room { NeverLacksRoom self.old → NeverLacksRoom self.new }
    {
        self.count += 1;
        self.head.clear();
        self.left = HEAD;
        self.coming = Coming::Head;
    }

    /// What has come whole is no record, for this reason. Nothing more is taken.
    pub fn refuse(&mut self, why: RecordWhy)
        requires whole { coming_of self.old ≡ Whole }
        requires refuses { Refuses (record_of self.old) why }
        ensures stands { (views : List RecordView) (came : List ℕ) (ended : Bool)
            → RecordFeedStandsFor self.old views came ended
            → RecordFeedStandsFor self.new views came ended }
        ensures coming { coming_of self.new ≡ Coming.Refused why }
        ensures left { left_of self.new ≡ 0 }
        ensures count { count_of self.new ≡ count_of self.old }
        ensures came { came_of self.new ≡ came_of self.old }
        ensures room { NeverLacksRoom self.old → NeverLacksRoom self.new }
    {
        self.coming = Coming::Refused(why);
    }
}
