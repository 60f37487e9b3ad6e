// The values that the words of a line spell.
ghost use Rattle.std.specs.Prelude.{◌≡◌, ◌≤◌, length, IfOk, IfErr};
ghost use Rattle.config_text.specs.Fields.{SpellsFields, FailsFirst};
ghost use Rattle.config_text.specs.Words.{first_values};

use crate::fault::TextWhy;
use crate::field::Field;
use crate::words::Words;

/// The most fields that a line has.
pub const MOST_FIELDS: usize = 12;

/// The values of the fields, with zeros behind them.
pub fn values_of(fields: &[Field], mut words: Words<'_>) -> Result<[u64; MOST_FIELDS], TextWhy>
    requires few { length fields.now ≤ 12 }
    requires count { length words ≡ length fields.now }
    ensures ok { IfOk result (λ values. SpellsFields fields.now (first_values (length fields.now) values) words.entry) }
    ensures err { IfErr result (FailsFirst fields.now words.entry) }
{
    let mut values = [0; MOST_FIELDS];
    for (place, field) in fields.iter().enumerate() {
        match field.value_of(words.next().unwrap()) {
            Some(value) => values[place] = value,
            None => return Err(field.why()),
        }
    }
    Ok(values)
}
