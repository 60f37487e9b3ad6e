// The rules of a configuration, and which of them fails first.
ghost use Rattle.std.specs.Prelude.{◌≡◌, ◌<◌, ◌↔◌, length, slice_index_or, true, IsTrue, MatchOption, IsOk, IfOk};
ghost use Rattle.std.specs.Prelude.{IfErr};
ghost use Rattle.plp_config.specs.FirstFailure.{FindsFailure};
ghost use Rattle.plp_config.specs.Rules.{RulesBelow, AllRules, Refuses};

use crate::at::At;
use crate::config::Config;
use crate::network_rules::network_tests;
use crate::plp_rules::{
    falling_type, lone_common, repeated_id, second_common, wrong_bit_rate, wrong_block_limit,
    wrong_common_rate, wrong_epoch, wrong_interleaver_length, wrong_spread, wrong_spread_length,
};
use std::marker::Model;
use thiserror::Error;

/// The first rule that a configuration breaks.
#[derive(Clone, Copy, Debug, PartialEq, Eq, Error)]
#[error("rule {rule} fails{}: {}", At(self.plp), self.demand())]
pub struct ConfigFault {
    /// The number of the rule, from 1.
    pub rule: u8,
    /// The first place where it fails, for the rules 10 to 20.
    pub plp: Option<u8>,
}

impl ConfigFault {
    fn demand(&self) -> &'static str {
        match self.rule {
            1 => "a frame must last from 1000 ticks to 250 ms",
            2 => "a superframe must have from 2 to 255 frames",
            3 => "a frame must have at least 2025 cells",
            4 =>
                "the start must have from 1 to 2^39 seconds, and fewer subseconds than a second has",
            5 => "utco must be below 8192",
            6 => "the PID must be from 16 to 8190",
            7 => {
                "BWT_EXT must be 0 or 1, S2 even and below 16, GUARD_INTERVAL and REGEN_FLAG below 8, PAPR, L1_MOD and PILOT_PATTERN below 16, L1_COD and L1_FEC_TYPE below 4, L1_POST_SIZE below 262144, NUM_DATA_SYMBOLS below 4096"
            }
            8 => "there must be from 2 to 6480 sub-slices with a PLP of type 2, and 1 without",
            9 => "there must be from 1 to 255 PLPs",
            10 => "no two PLPs may have one identifier",
            11 => "common PLPs must stand first, and those of type 2 last",
            12 => "a PLP must have from 1 to 1023 blocks",
            13 => "the interleaver length must be at most the number of blocks, and at most 255",
            14 => "a PLP must have from 1 to 72000000 bit/s",
            15 => "the spread must be at least 1 and divide the frames of a superframe",
            16 => "the interleaver length must be 1 with a spread above 1",
            17 => "an interleaving frame must last fewer than 4194304 ticks",
            18 => "a group may have at most one common PLP",
            19 => "a PLP must have the bit rate and the spread of the common PLP of its group",
            20 => "another PLP must be in the group of a common PLP",
            _ => "there is no such rule",
        }
    }
}

/// A configuration that satisfies every rule.
#[derive(Debug, Drop)]
pub struct Valid {
    config: Config,
}

impl Model for Valid {
    ghost use Rattle.plp_config.specs.declared.config.Config.{Config};
    ghost use Rattle.plp_config.specs.Rules.{AllRules};

    ghost Value = { Config };

    ghost view = { λ v. v.config };

    ghost invariant = { λ v. AllRules v.config };
}

impl Valid {
    /// The configuration.
    pub fn config(&self) -> &Config
        ensures value { result.now ≡ self.now }
        ensures rules { AllRules self.now }
    {
        &self.config
    }

    pub(crate) fn into_config(self) -> Config
        ensures value { result ≡ self }
        ensures rules { AllRules self }
    {
        self.config
    }
}

/// Tries the rules, in their order. A configuration that breaks one comes back unchanged.
pub fn validate(config: Config) -> Result<Valid, (Config, ConfigFault)>
    ensures valid { IsOk result ↔ AllRules config }
    ensures ok { IfOk result (λ valid. valid ≡ config) }
    ensures same { IfErr result (λ refusal. refusal.0 ≡ config) }
    ensures fault { IfErr result (λ refusal. Refuses config refusal.1) }
{
    match first_fault(&config) {
        Some(fault) => Err((config, fault)),
        None => Ok(Valid { config }),
    }
}

fn first_fault(config: &Config) -> Option<ConfigFault>
    ensures { MatchOption result (AllRules config.now) (Refuses config.now) }
{
    match network_fault(config) {
        Some(fault) => Some(fault),
        None => plp_fault(config),
    }
}

// The least of the rules 10 to 20 that fails. They take time by the square of the number of PLPs, which is bounded by
// then.
fn plp_fault(config: &Config) -> Option<ConfigFault>
    requires { RulesBelow 10 config.now }
    ensures { MatchOption result (AllRules config.now) (Refuses config.now) }
{
    fault_at(10, repeated_id(config))
        .or(fault_at(11, falling_type(config)))
        .or(fault_at(12, wrong_block_limit(config)))
        .or(fault_at(13, wrong_interleaver_length(config)))
        .or(fault_at(14, wrong_bit_rate(config)))
        .or(fault_at(15, wrong_spread(config)))
        .or(fault_at(16, wrong_spread_length(config)))
        .or(fault_at(17, wrong_epoch(config)))
        .or(fault_at(18, second_common(config)))
        .or(fault_at(19, wrong_common_rate(config)))
        .or(fault_at(20, lone_common(config)))
}

// The least of the rules 1 to 9 that fails.
fn network_fault(config: &Config) -> Option<ConfigFault>
    ensures { MatchOption result (RulesBelow 10 config.now) (Refuses config.now) }
{
    let place = first_false(&network_tests(config))?;
    Some(ConfigFault {
        rule: place as u8 + 1,
        plp: None,
    })
}

// The fault of a rule of the PLPs, by the first place where it fails.
fn fault_at(rule: u8, place: Option<usize>) -> Option<ConfigFault>
    ensures { MatchOption place (result ≡ None) (λ p. p < 256 → result ≡ Some (record { rule = rule; plp = Some p })) }
{
    place.map(|place| ConfigFault {
        rule,
        plp: u8::try_from(place).ok(),
    })
}

// The first test that fails.
fn first_false(tests: &[bool]) -> Option<usize>
    ensures { FindsFailure (λ place. IsTrue (slice_index_or tests.now place true)) (length tests.now) result }
{
    tests.iter().position(|test| !test)
}
