// How a command ends whose run of a machine is over.
ghost use Rattle.std.specs.Prelude.{◌≡◌, IfOk, IfErr};
ghost use Rattle.site_top.specs.Outcomes.{run_outcome, stop_outcome};
ghost use Rattle.site_top.specs.Saying.{Tells};

use crate::config_commands::tell;
use crate::outcome::{Outcome, file_outcome};
use compare_run::CompareStop;
use file_run::{Line, RunStop};
use gateway_run::{GatewayRan, GatewayStop};
use mend_run::{MendRan, MendStop};
use merge_run::{MergeRan, MergeStop};
use modulate_run::{ModulateRan, ModulateStop};
use plp_config::MOST_FRAMES;
use ports::Desk;
use receive_run::{ReceiveRan, ReceiveStop};
use show_run::ShowStop;
use swap_run::{SwapRan, SwapStop};

/// A machine's own cause why its run is no success.
pub trait Cause: Copy {
    ghost use Rattle.site_top.specs.declared.outcome.Outcome.{Outcome};

    /// How a command ends by it.
    ghost outcome: { Self → Outcome };

    /// How a command ends by it.
    fn outcome(self) -> Outcome
        ensures { result ≡ outcome self };
}

impl Cause for GatewayStop {
    ghost use Rattle.site_top.specs.Outcomes.{gateway_cause};

    ghost outcome = { gateway_cause };

    fn outcome(self) -> Outcome {
        match self {
            GatewayStop::Bad { input, packet } => Outcome::InputRefused { input, packet },
            GatewayStop::TooManyFrames => Outcome::TooLong { count: MOST_FRAMES },
        }
    }
}

impl Cause for ModulateStop {
    ghost use Rattle.site_top.specs.Outcomes.{modulate_cause};

    ghost outcome = { modulate_cause };

    fn outcome(self) -> Outcome {
        match self {
            ModulateStop::NoSuperframe => Outcome::NoSuperframe,
            ModulateStop::TooManyFrames => Outcome::TooLong { count: MOST_FRAMES },
        }
    }
}

impl Cause for ReceiveStop {
    ghost use Rattle.site_top.specs.Outcomes.{receive_cause};

    ghost outcome = { receive_cause };

    fn outcome(self) -> Outcome {
        match self {
            ReceiveStop::RecordRefused { number, why } => Outcome::RecordRefused { number, why },
        }
    }
}

impl Cause for MergeStop {
    ghost use Rattle.site_top.specs.Outcomes.{merge_cause};

    ghost outcome = { merge_cause };

    fn outcome(self) -> Outcome {
        match self {
            MergeStop::NoSuperframe => Outcome::NoSuperframe,
            MergeStop::TooManyFrames => Outcome::TooLong { count: MOST_FRAMES },
        }
    }
}

impl Cause for MendStop {
    ghost use Rattle.site_top.specs.Outcomes.{mend_cause};

    ghost outcome = { mend_cause };

    fn outcome(self) -> Outcome {
        match self {
            MendStop::NoFrame => Outcome::NoSuperframe,
        }
    }
}

impl Cause for SwapStop {
    ghost use Rattle.site_top.specs.Outcomes.{swap_cause};

    ghost outcome = { swap_cause };

    fn outcome(self) -> Outcome {
        match self {
            SwapStop::NoSuperframe => Outcome::NoSuperframe,
            SwapStop::InputRefused { packet } => Outcome::InputRefused { input: 0, packet },
            SwapStop::TooManyFrames => Outcome::TooLong { count: MOST_FRAMES },
        }
    }
}

impl Cause for CompareStop {
    ghost use Rattle.site_top.specs.Outcomes.{compare_cause};

    ghost outcome = { compare_cause };

    fn outcome(self) -> Outcome {
        match self {
            CompareStop::NoSuperframe => Outcome::NoSuperframe,
            CompareStop::TooManyFrames => Outcome::TooLong { count: MOST_FRAMES },
            CompareStop::Differs { frame } => Outcome::Differs { frame },
        }
    }
}

impl Cause for ShowStop {
    ghost use Rattle.site_top.specs.Outcomes.{show_cause};

    ghost outcome = { show_cause };

    fn outcome(self) -> Outcome {
        match self {
            ShowStop::PacketRefused { at, why } => Outcome::PacketRefused { at, why },
            ShowStop::RecordRefused { number, why } => Outcome::RecordRefused { number, why },
            ShowStop::NoRoom => Outcome::OutOfMemory,
        }
    }
}

// How a command ends whose run is no success.
fn stopped<E: Cause>(stop: RunStop<E>) -> Outcome
    ensures { result ≡ stop_outcome E.outcome stop }
{
    match stop {
        RunStop::Refused(why) => why.outcome(),
        RunStop::Files(fault) => file_outcome(fault),
        RunStop::OutOfMemory => Outcome::OutOfMemory,
    }
}

/// How a command ends that has said all in its run.
pub fn outcome_of<R: Copy, E: Cause>(run: Result<R, RunStop<E>>) -> Outcome
    ensures { result ≡ run_outcome (stop_outcome E.outcome) run }
{
    match run {
        Ok(_) => Outcome::Done,
        Err(stop) => stopped(stop),
    }
}

/// What is told of a run to its end.
pub trait Ran: Copy {
    ghost use Rattle.std.specs.Prelude.{List, ℕ};

    /// Its line.
    ghost line: { Self → List ℕ };

    /// Its line.
    fn line(self) -> Line
        ensures { result ≡ line self };
}

impl Ran for GatewayRan {
    ghost use Rattle.site_top.specs.GatewayCommand.{gateway_line};

    ghost line = { gateway_line };

    fn line(self) -> Line {
        let mut line = Line::new();
        line.push_field(b"frames=", self.frames);
        line.push_field(b" units=", self.units);
        line.push(b"\n");
        line
    }
}

impl Ran for ModulateRan {
    ghost use Rattle.site_top.specs.ModulateCommand.{modulate_line};

    ghost line = { modulate_line };

    fn line(self) -> Line {
        let mut line = Line::new();
        line.push_field(b"first=", self.first);
        line.push_field(b" records=", self.records);
        line.push_field(b" muted=", self.muted);
        line.push(b"\n");
        line
    }
}

impl Ran for ReceiveRan {
    ghost use Rattle.site_top.specs.ReceiveCommand.{receive_line};

    ghost line = { receive_line };

    fn line(self) -> Line {
        let mut line = Line::new();
        line.push_field(b"first=", self.first);
        line.push_field(b" slots=", self.slots);
        line.push(b"\n");
        line
    }
}

impl Ran for MergeRan {
    ghost use Rattle.site_top.specs.MergeCommand.{merge_line};

    ghost line = { merge_line };

    fn line(self) -> Line {
        let mut line = Line::new();
        line.push_field(b"merged frames=", self.frames);
        line.push_field(b" a=", self.a);
        line.push_field(b" b=", self.b);
        line.push_field(b" units=", self.units);
        line.push(b"\n");
        line
    }
}

impl Ran for MendRan {
    ghost use Rattle.site_top.specs.MendCommand.{mend_line};

    ghost line = { mend_line };

    fn line(self) -> Line {
        let mut line = Line::new();
        line.push_field(b"mended frames=", self.frames);
        line.push_field(b" woven=", self.woven);
        line.push_field(b" missing=", self.missing);
        line.push_field(b" units=", self.units);
        line.push(b"\n");
        line
    }
}

impl Ran for SwapRan {
    ghost use Rattle.site_top.specs.SwapCommand.{swap_line};

    ghost line = { swap_line };

    fn line(self) -> Line {
        let mut line = Line::new();
        line.push_field(b"frames=", self.frames);
        line.push_field(b" muted=", self.muted);
        line.push_field(b" unsent=", self.unsent);
        line.push_field(b" units=", self.units);
        line.push(b"\n");
        line
    }
}

/// Says the line of a run to its end, or how the command ends whose run is no success.
pub fn tell_run<R: Ran, E: Cause, D: Desk>(desk: &mut D, run: Result<R, RunStop<E>>) -> Outcome
    ensures ok { IfOk run (λ ran. Tells (D.state desk.old) (D.state desk.new) (R.line ran) result) }
    ensures err { IfErr run (λ stop. (D.state desk.new ≡ D.state desk.old) × (result ≡ stop_outcome E.outcome stop)) }
{
    match run {
        Ok(ran) => tell(desk, ran.line().as_bytes()),
        Err(stop) => stopped(stop),
    }
}
