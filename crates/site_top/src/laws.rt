// Laws of the definitions. Their functions do nothing.
ghost use Rattle.site_top.specs.Laws.{OneEnding, CommandsHaveEnding, Completeness, OnlyOutChanges};

use compare_run::{one_run_law as one_comparison, run_ends_law as comparison_ends};
use file_run::{config_ends_law, one_config_law};
use gateway_run::{one_run_law, run_ends_law};
use merge_run::{one_run_law as one_merging, run_ends_law as merging_ends};
use modulate_run::{one_run_law as one_modulation, run_ends_law as modulation_ends};
use receive_run::{one_run_law as one_reception, run_ends_law as reception_ends};
use show_run::{packets_end_law, records_end_law};
use swap_run::{one_run_law as one_swapping, run_ends_law as swapping_ends};

/// The files that a desk holds decide how a run over them must end.
pub fn one_ending_law()
    ensures { OneEnding }
{
    packets_end_law();
    records_end_law();
    one_config_law();
    one_run_law();
    one_modulation();
    one_reception();
    one_merging();
    one_swapping();
    one_comparison();
}

/// Over files that are not too long each command has an ending.
pub fn commands_have_ending_law()
    ensures { CommandsHaveEnding }
{
    packets_end_law();
    records_end_law();
    config_ends_law();
    run_ends_law();
    modulation_ends();
    reception_ends();
    merging_ends();
    swapping_ends();
    comparison_ends();
}

/// A command that did what it does is complete.
pub fn completeness_law()
    ensures { Completeness }
{
    one_ending_law();
    one_config_law();
    one_run_law();
    one_modulation();
    one_reception();
    one_merging();
    one_swapping();
    one_comparison();
}

/// However a command ends, it changes no file but the one that it writes, creates it once at most, and opens no more
/// files than it reads.
pub fn only_out_changes_law()
    ensures { OnlyOutChanges }
{}
