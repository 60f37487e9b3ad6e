// The rules of the network as a whole, each by its test.
ghost use Rattle.std.specs.Prelude.{◌≡◌, ◌↔◌, length, IsTrue};
ghost use Rattle.std.specs.List.{list_all};
ghost use Rattle.plp_config.specs.Plps.{has_type2};
ghost use Rattle.plp_config.specs.Rules.{RuleHolds, FrameDuration, SuperframeLength, LeastCells, StartTime, UtcOffset};
ghost use Rattle.plp_config.specs.Rules.{PidRange};
ghost use Rattle.plp_config.specs.Rules.{L1Fields, SubSlices, PlpCount};
ghost use Rattle.plp_config.specs.RuleTests.{TellsRules};

use crate::config::Config;
use crate::list::MOST_PLPS;
use crate::plp::{Plp, PlpType};

// Whether each of the rules 1 to 9 holds.
pub(crate) fn network_tests(config: &Config) -> [bool; 9]
    ensures count { length result ≡ 9 }
    ensures tells { TellsRules config.now result }
{
    [
        has_frame_duration(config),
        has_superframe_length(config),
        has_least_cells(config),
        has_start_time(config),
        has_utc_offset(config),
        has_pid(config),
        has_l1_fields(config),
        has_sub_slices(config),
        has_plp_count(config),
    ]
}

fn has_frame_duration(config: &Config) -> bool
    ensures { IsTrue result ↔ RuleHolds FrameDuration config.now }
{
    (1_000..=config.band.greatest_ticks()).contains(&config.ticks)
}

fn has_superframe_length(config: &Config) -> bool
    ensures { IsTrue result ↔ RuleHolds SuperframeLength config.now }
{
    (2..=255).contains(&config.frames)
}

fn has_least_cells(config: &Config) -> bool
    ensures { IsTrue result ↔ RuleHolds LeastCells config.now }
{
    config.cells >= 2_025
}

fn has_start_time(config: &Config) -> bool
    ensures { IsTrue result ↔ RuleHolds StartTime config.now }
{
    (1..=1 << 39).contains(&config.seconds)
        && config.subseconds < config.band.subseconds_per_second()
}

fn has_utc_offset(config: &Config) -> bool
    ensures { IsTrue result ↔ RuleHolds UtcOffset config.now }
{
    config.utco < 8_192
}

fn has_pid(config: &Config) -> bool
    ensures { IsTrue result ↔ RuleHolds PidRange config.now }
{
    (16..=8_190).contains(&config.pid)
}

fn has_l1_fields(config: &Config) -> bool
    ensures { IsTrue result ↔ RuleHolds L1Fields config.now }
{
    let l1 = &config.l1;
    all(&[
        l1.bwt_ext < 1 << 1,
        l1.s2 < 1 << 4,
        l1.s2 % 2 == 0,
        l1.guard < 1 << 3,
        l1.papr < 1 << 4,
        l1.l1_mod < 1 << 4,
        l1.l1_cod < 1 << 2,
        l1.l1_fec < 1 << 2,
        l1.post_size < 1 << 18,
        l1.pilot < 1 << 4,
        l1.symbols < 1 << 12,
        l1.regen < 1 << 3,
    ])
}

fn all(tests: &[bool]) -> bool
    ensures { result ≡ list_all (λ test. test) tests.now }
{
    tests.iter().all(|test| *test)
}

fn has_sub_slices(config: &Config) -> bool
    ensures { IsTrue result ↔ RuleHolds SubSlices config.now }
{
    if has_type2(config.plps.as_slice()) {
        (2..=6_480).contains(&config.sub_slices)
    } else {
        config.sub_slices == 1
    }
}

fn has_type2(plps: &[Plp]) -> bool
    ensures { result ≡ has_type2 plps.now }
{
    plps.iter().any(|plp| plp.plp_type == PlpType::Type2)
}

fn has_plp_count(config: &Config) -> bool
    ensures { IsTrue result ↔ RuleHolds PlpCount config.now }
{
    (1..=MOST_PLPS).contains(&config.plps.len())
}
