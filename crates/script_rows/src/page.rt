// The page of a script: a line for each row, its name and what came of it. What a run says in several lines has lines
// of its own, and each further run of a row begins another line.
use std::alloc::{AllocError, Global};

/// What comes of a line of a script.
#[derive(Drop)]
pub(crate) enum Came {
    Nothing,
    /// A word of a file.
    Word(String),
    /// What a run said, and how it ended.
    Run { said: String, end: String },
}

/// Where the page goes on.
#[derive(Clone, Copy, PartialEq, Eq)]
pub(crate) enum Place {
    /// At the begin of a line.
    Line,
    /// Behind the name of a row.
    Name,
    /// Behind something that came of a row.
    Answer,
}

// What stands between, and before what a run says.
fn before_word(place: Place) -> &'static str {
    match place {
        Place::Line => "",
        Place::Name => ": ",
        Place::Answer => ", ",
    }
}

fn before_run(place: Place) -> &'static str {
    match place {
        Place::Line => "  ",
        Place::Name => ": ",
        Place::Answer => "\n  ",
    }
}

fn before_lines(place: Place) -> &'static str {
    match place {
        Place::Line => "",
        Place::Name => ":\n",
        Place::Answer => "\n",
    }
}

fn before_name(place: Place) -> &'static str {
    if place == Place::Line { "" } else { "\n" }
}

fn text_of_run(alloc: Global, place: Place, said: &str, end: &str) -> Result<String, AllocError> {
    if said.is_empty() {
        return format!(in alloc; "{}{end}", before_run(place));
    }
    match said.strip_suffix('\n') {
        Some(line) if !line.contains('\n') => format!(in alloc;
            "{}{line}, {end}",
            before_run(place)
        ),
        _ => format!(in alloc; "{}{said}  {end}", before_lines(place)),
    }
}

fn text_of_came(alloc: Global, place: Place, came: &Came) -> Result<String, AllocError> {
    match came {
        Came::Nothing => Ok(String::new(alloc)),
        Came::Word(word) => format!(in alloc; "{}{word}", before_word(place)),
        Came::Run { said, end } => text_of_run(alloc, place, said.as_str(), end.as_str()),
    }
}

// Where the page goes on behind what came.
fn behind(place: Place, came: &Came) -> Place {
    match came {
        Came::Nothing => place,
        _ => Place::Answer,
    }
}

/// What is written of a line of a script, `## PART`, `# ROW` or another one, of which this came, and where the page
/// goes on.
pub(crate) fn text_of(
    alloc: Global,
    place: Place,
    line: &str,
    came: &Came,
) -> Result<(String, Place), AllocError> {
    if line.starts_with("## ") {
        let text = format!(in alloc; "{}\n{line}\n", before_name(place))?;
        return Ok((text, Place::Line));
    }
    if let Some(name) = line.strip_prefix("# ") {
        let text = format!(in alloc; "{}{name}", before_name(place))?;
        return Ok((text, Place::Name));
    }
    Ok((text_of_came(alloc, place, came)?, behind(place, came)))
}
