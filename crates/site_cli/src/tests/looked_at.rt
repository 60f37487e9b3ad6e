// What a file is told to be that is not what it has to be.
use super::{CONFIG, Outside, words_from};
use bit_slice::OutOfMemory;
use site_console::carry_out;
use std::fs::{self, Files};
use std::io;
use std::test::Fail;
use ts_packet::{SIZE, TsPacket};

// What people are told first of a command over the files of `make_files`.
struct Look {
    words: &'static [&'static str],
    told: &'static str,
}

#[rattlefmt::skip]
static LOOKS: [Look; 11] = [
    Look { words: &["show", "packets", "at.null"],
        told: "at.null: it begins as a transport stream; `show t2mi` shows it\n" },
    Look { words: &["show", "frames", "at.null"],
        told: "at.null: it begins as a transport stream; `show t2mi` shows it\n" },
    Look { words: &["receive", "at.txt", "0", "at.null", "at.out"],
        told: "at.null: it begins as a transport stream; `show t2mi` shows it\n" },
    Look { words: &["show", "packets", "at.zeros"],
        told: "at.zeros: no T2-MI packet begins at byte 0: the CRC-32 differs; see that the file holds whole packets and nothing else\n" },
    Look { words: &["show", "frames", "at.zeros"],
        told: "at.zeros: record 0, counted from 0: no head of a record, or the file ends inside it; see that the file holds whole records and nothing else\n" },
    Look { words: &["show", "config", "at.zeros"],
        told: "at.zeros: this is a transport stream or other data, and no text; name the text of a configuration\n" },
    Look { words: &["show", "t2mi", "at.txt"],
        told: "at.txt: no unit of 188 bytes in its first 5000 is a transport packet with a payload, other than a null packet\n" },
    Look { words: &["gateway", "at.txt", "at.out", "at.zeros"],
        told: "at.zeros: packet 0, counted from 0, does not begin with the sync byte 0x47; OUT holds the units of the frames before; " },
    Look { words: &["gateway", "at.txt", "at.out", "at.cut"],
        told: "at.cut: the file ends inside packet 1, counted from 0; OUT holds the units of the frames before; " },
    Look { words: &["modulate", "at.txt", "at.null", "at.out"],
        told: "at.null: no superframe begins in it with a frame that passes the tests; see that it is the T2-MI stream of the network of CONFIG, on its PID
at.null: none of its units is on the PID of CONFIG; `show t2mi` tells which PIDs come
" },
    Look { words: &["modulate", "at.txt", "at.none", "at.out"],
        told: "at.none: no superframe begins in it with a frame that passes the tests; see that it is the T2-MI stream of the network of CONFIG, on its PID
at.none: it has no unit of 188 bytes
" },
];

#[rattlefmt::skip]
const NAMES: [&str; 6] = ["at.txt", "at.null", "at.cut", "at.zeros", "at.none", "at.out"];

// A packet, and a piece of the next.
const CUT: usize = SIZE + 10;

// Makes a configuration, a null packet, one with a piece of another behind it, and what is no packet.
fn make_files(rt: &(impl Files + AllocGlobal)) -> io::Result<()> {
    let null = TsPacket::canonical();
    let mut cut = [0; CUT];
    cut[..SIZE].copy_from_slice(null.as_array());
    fs::write(rt, "at.txt", CONFIG.as_bytes())?;
    fs::write(rt, "at.null", null.as_array())?;
    fs::write(rt, "at.cut", &cut)?;
    fs::write(rt, "at.zeros", &[0; SIZE])?;
    fs::write(rt, "at.none", b"")?;
    fs::write(rt, "at.out", b"")
}

fn remove_files(rt: &impl Files) -> io::Result<()> {
    for name in NAMES {
        fs::remove_file(rt, name)?;
    }
    Ok(())
}

fn says<R: Files + AllocGlobal + Drop>(rt: R, look: &Look) -> Result<bool, OutOfMemory> {
    let words = words_from(rt.alloc(), look.words)?;
    let outside = Outside::new(rt, true);
    carry_out(&outside, "site_cli", &words, false);
    Ok(outside.has_begun(look.told))
}

#[test]
fn what_a_file_is_is_told(rt: HostRuntime) -> Result<(), Fail> {
    make_files(&rt)?;
    for (at, look) in LOOKS.iter().enumerate() {
        assert!(rt; says(&rt, look)?, "look {at}");
    }
    remove_files(&rt)?;
    Ok(())
}
