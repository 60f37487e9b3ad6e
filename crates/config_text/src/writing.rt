// The text of a configuration is written.
ghost use Rattle.std.specs.Prelude.{◌≡◌, ◌<◌, ◌≤◌, ◌++◌, ◌∷◌, [], length, slice_index_or, IfOk, IfSome, IfNone, OnOk};
ghost use Rattle.config_text.specs.ConfigText.{canonical_line, canonical_text, Spells};
ghost use Rattle.config_text.specs.Fields.{plp_fields, l1_fields, fields_at, words_after};
ghost use Rattle.config_text.specs.Rows.{band_word as word_of_band, rows_of, plp_row, l1_row};
ghost use Rattle.config_text.specs.Words.{first_values, row_of, FitFields};

use crate::field::{Field, fields_at, key_at};
use crate::spelling::BANDS;
use crate::values::MOST_FIELDS;
use bit_slice::OutOfMemory;
use itoa::Buffer;
use plp_config::{Band, Config, FecSize, L1Numbers, Modulation, Plp, Rate};
use std::alloc::Global;

type Values = [u64; MOST_FIELDS];

/// The word of a bandwidth.
pub fn band_word(band: Band) -> &'static [u8]
    ensures word { result.now ≡ word_of_band band }
    ensures len { length result.now ≤ 3 }
{
    BANDS[usize::from(band.bw())]
}

fn plp_values(plp: &Plp) -> Values
    ensures row { first_values 12 result ≡ plp_row plp.now }
    ensures fits { FitFields plp_fields (first_values 12 result) }
{
    [
        u64::from(plp.id),
        u64::from(plp.plp_type.number()),
        u64::from(plp.group),
        u64::from(plp.rate.plp_cod()),
        u64::from(plp.modulation.plp_mod()),
        u64::from(plp.fec.plp_fec_type()),
        u64::from(plp.rotation),
        u64::from(plp.blocks),
        u64::from(plp.interleave),
        u64::from(!plp.delete),
        u64::from(plp.bits_per_second),
        u64::from(plp.spread),
    ]
}

fn l1_values(l1: L1Numbers) -> Values
    ensures row { first_values 12 result ≡ l1_row l1 }
    ensures fits { FitFields l1_fields (first_values 12 result) }
{
    [
        u64::from(l1.bwt_ext),
        u64::from(l1.s2),
        u64::from(l1.guard),
        u64::from(l1.papr),
        u64::from(l1.l1_mod),
        u64::from(l1.l1_cod),
        u64::from(l1.l1_fec),
        u64::from(l1.post_size),
        u64::from(l1.pilot),
        u64::from(l1.tx_id),
        u64::from(l1.symbols),
        u64::from(l1.regen),
    ]
}

// Up to four values, with zeros behind them.
fn few_values(first: u64, second: u64, third: u64, fourth: u64) -> Values
    ensures { result ≡ first ∷ second ∷ third ∷ fourth ∷ 0 ∷ 0 ∷ 0 ∷ 0 ∷ 0 ∷ 0 ∷ 0 ∷ 0 ∷ [] }
{
    [first, second, third, fourth, 0, 0, 0, 0, 0, 0, 0, 0]
}

// The words of the fields, each behind a space.
fn push_words(text: &mut Vec<u8>, fields: &[Field], values: &Values) -> Result<(), OutOfMemory>
    requires few { length fields.now ≤ 12 }
    requires fits { FitFields fields.now (first_values (length fields.now) values.now) }
    ensures ok { OnOk result (text.new.items
        ≡ text.old.items ++ words_after fields.now (first_values (length fields.now) values.now)) }
{
    for (place, field) in fields.iter().enumerate() {
        text.push(b' ')?;
        text.extend_from_slice(field.word_of(values[place], &mut Buffer::new()))?;
    }
    Ok(())
}

fn push_line(text: &mut Vec<u8>, due: usize, values: &Values) -> Result<(), OutOfMemory>
    requires { FitFields (fields_at due) (row_of due values.now) }
    ensures ok { OnOk result (text.new.items ≡ text.old.items ++ (canonical_line due (row_of due values.now)
        ++ 10 ∷ [])) }
{
    text.extend_from_slice(key_at(due))?;
    push_words(text, fields_at(due), values)?;
    text.push(b'\n')?;
    Ok(())
}

// The values of the line that is due behind so many, and `None` behind the last one.
fn values_at(config: &Config, due: usize) -> Option<Values>
    ensures row { IfSome result (λ values. row_of due values ≡ slice_index_or (rows_of 2 config.now) due []) }
    ensures fits { IfSome result (λ values. FitFields (fields_at due) (row_of due values)) }
    ensures some { IfSome result (λ values. due < length (rows_of 2 config.now)) }
    ensures none { IfNone result (length (rows_of 2 config.now) ≤ due) }
{
    match due {
        0 => Some([2, 0, 0, 0, 0, 0, 0, 0, 0, 0, 0, 0]),
        1 => Some(few_values(u64::from(config.band.bw()), 0, 0, 0)),
        2 => Some(few_values(
            u64::from(config.ticks),
            u64::from(config.frames),
            u64::from(config.cells),
            0,
        )),
        3 => Some(few_values(
            config.seconds,
            u64::from(config.subseconds),
            u64::from(config.utco),
            0,
        )),
        4 => Some(few_values(u64::from(config.pid), 0, 0, 0)),
        5 => Some(few_values(
            u64::from(config.cell_id),
            u64::from(config.network_id),
            u64::from(config.system_id),
            u64::from(config.frequency),
        )),
        6 => Some(l1_values(config.l1)),
        7 => Some(few_values(u64::from(config.sub_slices), 0, 0, 0)),
        _ => Some(plp_values(config.plps.get(due - 8)?)),
    }
}

/// The text of a configuration of at most 255 PLPs, in version 2: its lines in order, each with LF, and no others.
pub fn write(alloc: Global, config: &Config) -> Result<Vec<u8>, OutOfMemory>
    requires { length config.now.plps ≤ 255 }
    ensures text { IfOk result (λ text. text.items ≡ canonical_text config.now) }
    // it is read back
    ensures spells { IfOk result (λ text. Spells text.items config.now) }
{
    let mut text = Vec::new(alloc);
    let mut due = 0;
    while let Some(values) = values_at(config, due) {
        push_line(&mut text, due, &values)?;
        due += 1;
    }
    Ok(text)
}
