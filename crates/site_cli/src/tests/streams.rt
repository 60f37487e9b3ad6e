// What is told of the files of a run that is done.
use super::{CONFIG, Outside, words_from};
use bit_slice::OutOfMemory;
use site_console::{carry_out, front_of};
use site_top::Outcome;
use std::fs::{self, Files};
use std::io;
use std::test::Fail;
use ts_packet::SIZE;

// Whether a command is done, and people are told this of it.
fn tells<R: Files + AllocGlobal + Drop>(
    rt: R,
    words: &[&str],
    told: &str,
) -> Result<bool, OutOfMemory> {
    let words = words_from(rt.alloc(), words)?;
    let outside = Outside::new(rt, true);
    let outcome = carry_out(&outside, "site_cli", &words, false);
    Ok(outcome == Outcome::Done && outside.has_heard(told))
}

// Whether a line tells how far a command is, and begins so.
fn begins<R: Files + AllocGlobal + Drop>(
    rt: R,
    words: &[&str],
    told: &str,
) -> Result<bool, OutOfMemory> {
    let words = words_from(rt.alloc(), words)?;
    let outside = Outside::new(rt, true);
    let outcome = carry_out(&outside, "site_cli", &words, true);
    Ok(outcome == Outcome::Done && outside.has_begun(told))
}

// What a run over the files of `make_files` is told as.
struct Heard {
    words: &'static [&'static str],
    told: &'static str,
}

// The stream of no packet, and of one, has four frames, each with room for four blocks. A frame wants 14 packets.
#[rattlefmt::skip]
static HEARD: [Heard; 14] = [
    Heard { words: &["gateway", "two.txt", "two.out", "two.none"],
        told: "two.none: it has no packet; null packets stand for it\nPLP 0: blocks sent: 0, of 16 that 4 frames have room for\n" },
    Heard { words: &["gateway", "two.txt", "two.out", "two.null"],
        told: "two.null: packets: 1, null packets among them: 1; these are deleted, but for each one that 255 deleted ones precede\nPLP 0: blocks sent: 0, of 16 that 4 frames have room for\n" },
    Heard { words: &["common", "gateway", "two.txt", "two.ts", "two.packet"],
        told: "two.packet: packets: 1, null packets among them: 0\nPLP 0: blocks sent: 1, of 16 that 4 frames have room for\n" },
    Heard { words: &["swap", "two.txt", "0", "two.ts", "two.none", "two.out"], told:
        "two.none: it has no packet; null packets stand for it\n" },
    Heard { words: &["swap", "two.txt", "0", "two.ts", "two.null", "two.out"],
        told: "two.null: its packets end before frame 1 of CONFIG; null packets stand for it from there on, if OUT goes on so far\n" },
    Heard { words: &["compare", "two.txt", "two.ts", "two.ts"], told: "" },
    Heard { words: &["compare", "two.txt", "two.none", "two.ts"], told:
        "two.none: no frame came from it: it has no unit of 188 bytes\n" },
    Heard { words: &["compare", "two.txt", "two.ts", "two.none"], told:
        "two.none: no frame came from it: it has no unit of 188 bytes\n" },
    Heard { words: &["merge", "two.txt", "two.ts", "two.ts", "two.out"],
        told: "two.ts: frames that it had whole: 4, of 4 that were sent; the last is frame 3 of CONFIG
two.ts: frames that it had whole: 4, of 4 that were sent; the last is frame 3 of CONFIG
two.ts: no frame was taken from it: two.ts had each of the 4 that it had whole
" },
    Heard { words: &["merge", "two.txt", "two.ts", "two.none", "two.out"],
        told: "two.none: its frames are not whole from frame 0 of CONFIG on; the other has some of them whole
two.ts: frames that it had whole: 4, of 4 that were sent; the last is frame 3 of CONFIG
of these 4 the other had not whole: the first is frame 0 of CONFIG, the last frame 3
two.none: no frame came from it: it has no unit of 188 bytes
" },
    Heard { words: &["mend", "two.txt", "two.out", "two.ts"],
        told: "two.ts: frames that it had whole: 4, of 4 that were sent; the last is frame 3 of CONFIG
" },
    Heard { words: &["mend", "two.txt", "two.out", "two.none", "two.ts"],
        told: "two.none: its frames are not whole from frame 0 of CONFIG on; the other has some of them whole
two.none: no frame came from it: it has no unit of 188 bytes
two.ts: frames that it had whole: 4, of 4 that were sent; the last is frame 3 of CONFIG
of these 4 no other IN had whole: the first is frame 0 of CONFIG, the last frame 3
" },
    Heard { words: &["modulate", "two.txt", "two.out", "two.records"], told: "" },
    Heard { words: &["receive", "two.txt", "0", "two.records", "two.out"], told: "" },
];

#[rattlefmt::skip]
const NAMES: [&str; 8] = ["two.txt", "two.none", "two.null", "two.packet", "two.ts", "two.records", "two.damaged",
    "two.out"];

// A bit that is changed in the last records of `HEARD`, by the place of its byte, and what `receive` tells of them
// then: in the L1-pre of record 0, and in the header of the one block, which record 1 has.
struct Damaged {
    place: usize,
    told: &'static str,
}

#[rattlefmt::skip]
static DAMAGED: [Damaged; 2] = [
    Damaged { place: 24,
        told: "two.damaged: frames whose L1 is not that of CONFIG: 1 of 4, records 0, counted from 0; null packets stand in OUT for what they carried; see that CONFIG is that of the network\n" },
    Damaged { place: 160_103 + 24 + 25 + 4 + 44 + 2 + 4,
        told: "two.damaged: blocks whose header is damaged: 1, in records 1, counted from 0; null packets stand in OUT for what they carried\n" },
];

// More bytes than the records of `HEARD` have.
const RECORDS: usize = 1 << 20;

// The unit that is lost of the stream of one packet: it is in the block, which frame 1 has.
const LOST: usize = 4;

// What is told of it by a clock that is a second on at each look: what is wrong as the run goes on, and at the end all.
const LOSS: &str = "two.damaged: 6 units; jumps of the continuity counter: 1, first at byte 752
frames are muted now; the first of them is record 1
frames come again behind record 1; muted so far: 1
two.damaged: 6 units; jumps of the continuity counter: 1, first at byte 752
muted frames: 1 of 4, records 1, counted from 0 as `show frames` does
of these 1 lack a packet, or have one too many: frame 1 of CONFIG
";

// Makes the damaged records.
fn damage(rt: &(impl Files + AllocGlobal), place: usize) -> io::Result<()> {
    let mut records = front_of(rt, "two.records", RECORDS)?;
    if let Some(byte) = records.get_mut(place) {
        *byte ^= 1;
    }
    fs::write(rt, "two.damaged", &records)
}

// Makes the stream without a unit.
fn lose(rt: &(impl Files + AllocGlobal)) -> io::Result<()> {
    let mut units = front_of(rt, "two.ts", RECORDS)?;
    for place in LOST * SIZE..units.len().saturating_sub(SIZE) {
        units[place] = units[place + SIZE];
    }
    let len = units.len().saturating_sub(SIZE);
    fs::write(rt, "two.damaged", units.get(..len).unwrap_or(&[]))
}

// A packet of a PID.
fn packet_of(pid: u16) -> [u8; SIZE] {
    let mut packet = [0xFF; SIZE];
    let [high, low] = pid.to_be_bytes();
    for (place, byte) in packet.iter_mut().zip([0x47, high, low, 0x10]) {
        *place = byte;
    }
    packet
}

// A configuration, an empty file, a null packet, and another one.
fn make_files(rt: &impl Files) -> io::Result<()> {
    fs::write(rt, "two.txt", CONFIG.as_bytes())?;
    fs::write(rt, "two.none", b"")?;
    fs::write(rt, "two.null", &packet_of(0x1FFF))?;
    fs::write(rt, "two.packet", &packet_of(256))
}

fn remove_files(rt: &impl Files) -> io::Result<()> {
    for name in NAMES {
        fs::remove_file(rt, name)?;
    }
    Ok(())
}

#[test]
fn it_is_told_what_came_of_each_file(rt: HostRuntime) -> Result<(), Fail> {
    make_files(&rt)?;
    for (at, heard) in HEARD.iter().enumerate() {
        assert!(rt; tells(&rt, heard.words, heard.told)?, "words {at}");
    }
    for (at, damaged) in DAMAGED.iter().enumerate() {
        damage(&rt, damaged.place)?;
        let words = ["receive", "two.txt", "0", "two.damaged", "two.out"];
        assert!(rt; tells(&rt, &words, damaged.told)?, "damage {at}");
    }
    lose(&rt)?;
    let words = ["modulate", "two.txt", "two.damaged", "two.out"];
    assert!(rt; tells(&rt, &words, LOSS)?, "loss");
    let words = ["modulate", "two.txt", "two.ts", "two.out"];
    assert!(rt;
        begins(
            &rt,
            &words,
            "\r\x1b[K0 frames, 0 kB/s, 0:00:00, at 0:00:02 UTC\r\x1b[K"
        )?,
        "progress"
    );
    remove_files(&rt)?;
    Ok(())
}
