// Idle units.
ghost use Rattle.std.specs.Prelude.{◌≡◌, Some};
ghost use Rattle.feed_events.specs.Arrivals.{is_idle_of, is_idle};

use ts_packet::{SIZE, TsView, fields_told_law, read};

// Whether a transport packet on the PID has no error, is not scrambled, and carries nothing.
fn is_empty(view: &TsView<'_>, pid: u16) -> bool
    ensures { result ≡ is_idle_of pid (Some view.now) }
{
    view.pid() == pid && !view.error() && view.scrambling() == 0 && view.payload().is_empty()
}

/// Whether a unit is idle.
pub(crate) fn is_idle(unit: &[u8; SIZE], pid: u16) -> bool
    ensures { result ≡ is_idle pid unit.now }
{
    fields_told_law();
    match read(unit) {
        Ok(view) => is_empty(&view, pid),
        Err(_) => false,
    }
}
