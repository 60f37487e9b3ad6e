// What the program does with its words.
use crate::advice::advise;
use crate::counts::{counts_of, plan_of, say_counts};
use crate::help::{self, Asked};
use crate::warning::warn;
use desk_watch::{Told, Watched};
use plp_config::Plan;
use ports::{Desk, HostDesk, HostFault, Reason};
use site_top::{Outcome, Word, request_of, run};
use std::alloc::Global;
use std::fs::{File, Files};
use std::io::{Eprint, Print};
use std::time::Clock;

// Carries a command out over a desk that is watched, and wipes the line away that tells how far it is.
fn run_watched<D: Desk, R: Clock + Eprint>(
    alloc: Global,
    words: &[Word],
    desk: &mut Watched<'_, D, R>,
) -> Outcome {
    let outcome = run(alloc, words, desk);
    desk.wipe();
    outcome
}

// A desk that keeps what failed first on it.
trait Failing: Desk {
    fn first_fault(&self) -> Option<&HostFault>;
}

impl<R: Files + Print + Drop> Failing for HostDesk<R> {
    fn first_fault(&self) -> Option<&HostFault> {
        HostDesk::first_fault(self)
    }
}

// Carries a command out over a desk, and tells people what came of it, with what is counted by a plan of its
// configuration.
fn follow<D: Failing + Drop, R: Files + Eprint + Clock + AllocGlobal>(
    rt: &R,
    desk: D,
    program: &str,
    words: &[Word],
    wanted: bool,
    plan: Option<&Plan>,
) -> Outcome {
    let counts = counts_of(rt.alloc(), request_of(words), plan);
    let mut desk = Watched::new(desk, rt, wanted, counts);
    let outcome = run_watched(rt.alloc(), words, &mut desk);
    advise(
        rt,
        program,
        words,
        outcome,
        desk.desk.first_fault(),
        desk.lines == 1,
    );
    // As far as standard error takes it.
    let _ = say_counts(rt, &desk.counts, outcome);
    outcome
}

// Answers what is asked for.
fn answer(rt: &(impl Print + Eprint), program: &str, asked: Asked<'_>) -> Outcome {
    match help::say(rt, program, asked) {
        Ok(()) => Outcome::Done,
        Err(why) => {
            let why = Reason::from(why);
            let _ = eprintln!(rt; "{}", Told(&HostFault::Said { why }));
            Outcome::WriteFault
        }
    }
}

/// Answers what the words ask for, or carries out the command that they name, over the files of the system, and tells
/// people, who know the program by this name, why it is not done: how it ended. If it is wanted, a line tells how far
/// it is.
pub fn carry_out<R: Files + Print + Eprint + Clock + AllocGlobal>(
    rt: &R,
    program: &str,
    words: &[Word],
    wanted: bool,
) -> Outcome {
    // If the program was started without the descriptors 0 to 2, they are taken, so that no file gets what is said.
    let _first = File::open(rt, "/dev/null");
    let _second = File::open(rt, "/dev/null");
    let _third = File::open(rt, "/dev/null");
    if let Some(asked) = help::asked_of(words) {
        return answer(rt, program, asked);
    }
    let request = request_of(words);
    warn(rt, words, request);
    let plan = plan_of(rt, request);
    let desk = HostDesk::new(rt, rt.alloc());
    follow(rt, desk, program, words, wanted, plan.as_ref())
}
