// What is said of words before a run: names of files that people may mean otherwise.
use crate::named_file::out_of;
use desk_watch::Shown;
use site_top::{Request, Word};
use std::fs::{self, Files};
use std::io::{self, Eprint};

// How many words are this one.
fn count_of(words: &[Word], name: &str) -> usize {
    words.iter().filter(|word| word.as_str() == name).count()
}

// Says of a word `-` that it is the name of a file, which it is not for other programs.
fn warn_of_dash(rt: &impl Eprint, words: &[Word]) -> io::Result<()> {
    if count_of(words, "-") == 0 {
        return Ok(());
    }
    eprintln!(rt;
        "- is taken as the name of a file; standard input is /dev/stdin, and a stream is written to a descriptor of its own: /dev/fd/3 with 3>.."
    )
}

// Says that standard input is named twice, if it is a pipe.
fn warn_of_twice(rt: &(impl Eprint + Files), words: &[Word]) -> io::Result<()> {
    if count_of(words, "/dev/stdin") < 2 || fs::metadata(rt, "/dev/stdin")?.is_file() {
        return Ok(());
    }
    eprintln!(rt; "/dev/stdin is named twice: a pipe gives its bytes once")
}

// Says of an OUT that it is no option, or that the line of the command comes behind it: a file of the disc is refused.
fn warn_of_out(rt: &(impl Eprint + Files), out: &str) -> io::Result<()> {
    if out.starts_with("--") {
        eprintln!(rt;
            "{} is taken as the name of a file; there are no options but --help and --version",
            Shown(out)
        )
    } else if out == "/dev/stdout" && !fs::metadata(rt, out)?.is_file() {
        eprintln!(rt;
            "/dev/stdout: the line of the command follows the stream; a stream is written to a descriptor of its own: /dev/fd/3 with 3>.."
        )
    } else {
        Ok(())
    }
}

/// Says of words which names of files may be meant otherwise, as far as standard error takes it.
pub fn warn(rt: &(impl Eprint + Files), words: &[Word], request: Option<Request<'_>>) {
    let _ = warn_of_dash(rt, words);
    let _ = warn_of_twice(rt, words);
    if let Some(out) = out_of(request) {
        let _ = warn_of_out(rt, out);
    }
}
