// Where in the text of CONFIG a refusal is, looked at again for people.
use crate::front::front_of;
use config_text::LONGEST_TEXT;
use plp_config::{Config, Plan, fits, validate};
use std::fs::{self, Files};
use std::io::{self, ErrorKind};
use std::str;

/// What a named file has of a configuration: as many bytes as one may have. A pipe gives its bytes once, so it is not
/// read again.
pub fn text_of(rt: &(impl Files + AllocGlobal), name: &str) -> io::Result<Vec<u8>> {
    if fs::metadata(rt, name)?.is_file() {
        front_of(rt, name, LONGEST_TEXT)
    } else {
        Err(io::Error::from(ErrorKind::InvalidInput))
    }
}

/// The configuration of a named file, if it can be read again.
pub fn config_again(rt: &(impl Files + AllocGlobal), name: &str) -> Option<Config> {
    config_text::read(rt.alloc(), &text_of(rt, name).ok()?).ok()
}

/// The plan of a named file, if it can be read again.
pub fn plan_again(rt: &(impl Files + AllocGlobal), name: &str) -> Option<Plan> {
    let valid = validate(config_again(rt, name)?).ok()?;
    fits(valid).ok()
}

// Bytes below this one, the tabulator, stand in no text.
const LEAST_OF_TEXT: u8 = 9;

/// Whether a front is that of data, and of no text.
pub fn is_data(front: &[u8]) -> bool {
    front.iter().any(|byte| *byte < LEAST_OF_TEXT)
}

/// The line of the PLP at a place, counted from 1, and its identifier.
pub fn plp_line(text: &[u8], place: u8) -> Option<(usize, &str)> {
    let lines = text.split(|byte| *byte == b'\n').enumerate();
    let (number, line) = lines
        .filter(|(_, line)| line.starts_with(b"plp "))
        .nth(usize::from(place))?;
    let id = line.split(|byte| *byte == b' ').nth(1)?;
    Some((number + 1, str::from_utf8(id).ok()?))
}
