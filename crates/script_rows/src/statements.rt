// The lines of a script.
//
// `## PART` and `# ROW` are names, which are written. `new` begins with no file but those whose names begin with a
// capital letter. `file NAME PIECES` sets a file; `text NAME LINE` adds a line to one, and `set NAME LINE` sets the
// line in it that has the same first word. `mute TO FROM BITS` sets a file: records, of which those whose bit is 1 are
// muted. `cap N` makes each read and write move at most so many bytes, and `fail KIND N` the nth call of a kind fail.
// `run WORDS` runs a command, and tells what it says, its status and how it ended; `told WORDS` tells besides what
// people are told, and `hush WORDS` not what it says, which is the file `said` from then on. `size NAME`, `crc NAME`
// and `same A B` tell of files, and `calls` and `ahead` of commands whose calls fail (`calls.rt`). Any other line tells
// nothing.
use crate::bench::{Bench, Files};
use crate::calls::{ahead_of, calls_of, kind_of};
use crate::page::Came;
use crate::pieces::{bytes_of, number};
use bit_slice::{BitSlice, crc32};
use site_top::Outcome;
use std::alloc::{AllocError, Global};
use std::str;

fn put_pieces(files: &mut Files, rest: &str) -> Result<(), AllocError> {
    let (name, pieces) = rest.split_once(' ').unwrap_or((rest, ""));
    let bytes = bytes_of(files, pieces)?;
    files.put(name, &bytes)
}

fn add_line(files: &mut Files, rest: &str) -> Result<(), AllocError> {
    let (name, line) = rest.split_once(' ').unwrap_or((rest, ""));
    let mut bytes = files.bytes(name).to_vec(files.alloc())?;
    bytes.extend_from_slice(line.as_bytes())?;
    bytes.extend_from_slice(b"\n")?;
    files.put(name, &bytes)
}

// Whether a line has this first word.
fn has_key(line: &str, key: &str) -> bool {
    line.split(' ').next() == Some(key)
}

fn text_with(alloc: Global, text: &str, line: &str) -> Result<String, AllocError> {
    let (key, _) = line.split_once(' ').unwrap_or((line, ""));
    let mut lines = String::new(alloc);
    for own in text.lines() {
        lines.push_str(if has_key(own, key) { line } else { own })?;
        lines.push('\n')?;
    }
    Ok(lines)
}

fn set_line(files: &mut Files, rest: &str) -> Result<(), AllocError> {
    let (name, line) = rest.split_once(' ').unwrap_or((rest, ""));
    let text = str::from_utf8(files.bytes(name)).unwrap_or("");
    let lines = text_with(files.alloc(), text, line)?;
    files.put(name, lines.as_str().as_bytes())
}

fn fail(bench: &mut Bench, rest: &str) -> Result<(), AllocError> {
    let (kind, nth) = rest.split_once(' ').unwrap_or((rest, "1"));
    match kind_of(kind) {
        Some(kind) => bench.fail(kind.kind, number(nth, 1) as u64),
        None => Ok(()),
    }
}

// The head of the first record of some, the rest of it, and what stands behind.
fn first_record(records: &[u8]) -> Option<(&[u8; 24], &[u8], &[u8])> {
    let (head, behind) = records.split_first_chunk::<24>()?;
    let len = u32::from_be_bytes([head[20], head[21], head[22], head[23]]) as usize;
    let (rest, next) = behind.split_at(len.min(behind.len()));
    Some((head, rest, next))
}

// The muted record of the same frame.
fn muted_head(head: &[u8; 24]) -> [u8; 24] {
    let mut muted = *head;
    muted[4..8].copy_from_slice(&[2, 0, 0, 0]);
    muted[20..].copy_from_slice(&[0; 4]);
    muted
}

fn push_record(
    bytes: &mut Vec<u8>,
    head: &[u8; 24],
    rest: &[u8],
    is_muted: bool,
) -> Result<(), AllocError> {
    if is_muted {
        return bytes.extend_from_slice(&muted_head(head));
    }
    bytes.extend_from_slice(head)?;
    bytes.extend_from_slice(rest)
}

fn muted(alloc: Global, records: &[u8], bits: &str) -> Result<Vec<u8>, AllocError> {
    let mut bytes = Vec::new(alloc);
    let mut left = records;
    for bit in bits.bytes() {
        let Some((head, rest, next)) = first_record(left) else {
            break;
        };
        push_record(&mut bytes, head, rest, bit == b'1')?;
        left = next;
    }
    Ok(bytes)
}

fn mute(files: &mut Files, rest: &str) -> Result<(), AllocError> {
    let (to, rest) = rest.split_once(' ').unwrap_or((rest, ""));
    let (from, bits) = rest.split_once(' ').unwrap_or((rest, ""));
    let bytes = muted(files.alloc(), files.bytes(from), bits)?;
    files.put(to, &bytes)
}

fn end_of(alloc: Global, outcome: Outcome) -> Result<String, AllocError> {
    format!(in alloc; "{} {outcome:?}", outcome.status())
}

fn said(bench: &Bench) -> &str {
    str::from_utf8(bench.answer()).unwrap_or("no text\n")
}

// Runs a command, and tells what it says and how it ends.
fn run(bench: &mut Bench, words: &str) -> Result<Came, AllocError> {
    let outcome = bench.run(words)?;
    Ok(Came::Run {
        said: String::from_str(bench.alloc(), said(bench))?,
        end: end_of(bench.alloc(), outcome)?,
    })
}

// The same with what people are told. It is run on a bench of its own, since they are told of files by the order in
// which they are opened.
fn told(bench: &mut Bench, words: &str) -> Result<Came, AllocError> {
    let mut own = bench.copy(words)?;
    let (outcome, told) = own.run_watched(words)?;
    bench.take(&own, words)?;
    Ok(Came::Run {
        said: format!(in bench.alloc(); "{}{told}", said(&own))?,
        end: end_of(bench.alloc(), outcome)?,
    })
}

// Runs a command, and tells how it ends.
fn hush(bench: &mut Bench, words: &str) -> Result<Came, AllocError> {
    let outcome = bench.run(words)?;
    Ok(Came::Word(end_of(bench.alloc(), outcome)?))
}

fn size(bench: &Bench, name: &str) -> Result<String, AllocError> {
    match bench.file(name) {
        Some(bytes) => format!(in bench.alloc(); "{}", bytes.len()),
        None => format!(in bench.alloc(); "absent"),
    }
}

fn crc(files: &Files, name: &str) -> Result<String, AllocError> {
    let bytes = files.bytes(name);
    if bytes.len() >= 1 << 30 {
        return format!(in files.alloc(); "too long");
    }
    format!(in files.alloc(); "{} {:08x}", bytes.len(), crc32(BitSlice::whole(bytes)))
}

fn same(files: &Files, names: &str) -> Result<String, AllocError> {
    let (one, other) = names.split_once(' ').unwrap_or((names, ""));
    let is_same = files.bytes(one) == files.bytes(other);
    format!(in files.alloc(); "{is_same}")
}

// What a line tells of files, if it does.
fn word(files: &Files, verb: &str, rest: &str) -> Result<Option<String>, AllocError> {
    let word = match verb {
        "size" => size(&files.bench, rest)?,
        "crc" => crc(files, rest)?,
        "same" => same(files, rest)?,
        "calls" => calls_of(&files.bench, rest)?,
        "ahead" => ahead_of(&files.bench, rest)?,
        _ => return Ok(None),
    };
    Ok(Some(word))
}

fn act(files: &mut Files, verb: &str, rest: &str) -> Result<(), AllocError> {
    match verb {
        "text" => add_line(files, rest),
        "set" => set_line(files, rest),
        "file" => put_pieces(files, rest),
        "fail" => fail(&mut files.bench, rest),
        "mute" => mute(files, rest),
        "cap" => {
            files.bench.cap(number(rest, 1).max(1));
            Ok(())
        }
        _ => Ok(()),
    }
}

fn act_or_tell(files: &mut Files, verb: &str, rest: &str) -> Result<Came, AllocError> {
    act(files, verb, rest)?;
    match word(files, verb, rest)? {
        Some(word) => Ok(Came::Word(word)),
        None => Ok(Came::Nothing),
    }
}

/// What comes of a line.
pub(crate) fn answer(files: &mut Files, line: &str) -> Result<Came, AllocError> {
    let (verb, rest) = line.split_once(' ').unwrap_or((line, ""));
    if verb == "new" {
        files.begin();
    }
    match verb {
        "run" => run(&mut files.bench, rest),
        "told" => told(&mut files.bench, rest),
        "hush" => hush(&mut files.bench, rest),
        _ => act_or_tell(files, verb, rest),
    }
}
