// Whether bits are a known configurable part.
ghost use Rattle.std.specs.Prelude.{◌≡◌, ◌≢◌, ◌↔◌, true, false, List, Bool, IsTrue, Ok, Err, IfOk, IfErr, length};
ghost use Rattle.std.specs.Prelude.{replicate};
ghost use Rattle.l1_signal.specs.Comparing.{front_told, front_read, back_read};
ghost use Rattle.l1_signal.specs.Fields.{each_read};
ghost use Rattle.l1_signal.specs.L1Configurable.{conf_plp_read, ConfSpells};

use crate::conf::{CONF_BACK, CONF_FIRST, CONF_MORE};
use crate::fields::read_fields;
use crate::rows::ReadPlp;
use crate::{ConfPlp, L1Conf, L1Fault};
use bit_slice::{BitReader, BitSlice, BitSource};

fn is_front(front: &[u64; 5], conf: &L1Conf) -> bool
    ensures { IsTrue result ↔ (front.now ≡ front_told conf.now) }
{
    *front
        == [
            u64::from(conf.sub_slices_per_frame),
            u64::from(conf.num_plp),
            u64::from(conf.num_aux),
            u64::from(conf.rf_idx),
            u64::from(conf.frequency),
        ]
}

fn read_front<'a, R: BitSource<'a>>(source: &mut R) -> Result<[u64; 5], L1Fault>
    ensures ok { IfOk result (λ front. front_read (R.left source.old) ≡ Ok (front, R.left source.new)) }
    ensures fault { IfErr result (λ e. front_read (R.left source.old) ≡ Err e) }
{
    let mut first = [0; 2];
    read_fields(source, &CONF_FIRST, &mut first)?;
    let mut more = [0; 4];
    read_fields(source, &CONF_MORE, &mut more)?;
    Ok([first[0], first[1], more[0], more[2], more[3]])
}

fn read_back<'a, R: BitSource<'a>>(source: &mut R) -> Result<u64, L1Fault>
    ensures ok { IfOk result (λ back. back_read (R.left source.old) ≡ Ok (back, R.left source.new)) }
    ensures fault { IfErr result (λ e. back_read (R.left source.old) ≡ Err e) }
{
    let mut back = [0; 2];
    read_fields(source, &CONF_BACK, &mut back)?;
    Ok(back[0])
}

fn is_same(one: &ConfPlp, other: &ConfPlp) -> bool
    ensures { IsTrue result ↔ (one.now ≡ other.now) }
{
    one == other
}

// Whether these PLPs come next.
fn has_plps<'a, R: BitSource<'a>>(source: &mut R, plps: &[ConfPlp]) -> bool
    ensures yes { result ≡ true → each_read (replicate (length plps.now) conf_plp_read) (R.left source.old)
        ≡ Ok (plps.now, R.left source.new) }
    ensures no { result ≡ false → (rest : List Bool) → each_read (replicate (length plps.now) conf_plp_read)
        (R.left source.old) ≢ Ok (plps.now, rest) }
{
    for i in 0..plps.len() {
        let Ok(plp) = ConfPlp::read(source) else {
            return false;
        };
        if !is_same(&plp, &plps[i]) {
            return false;
        }
    }
    true
}

/// Whether the bits, all of them, are a spelling of that configurable part. RESERVED bits and AUX_CONFIG_RFU decide
/// nothing.
pub fn is_conf(bits: BitSlice<'_>, conf: &L1Conf) -> bool
    ensures { IsTrue result ↔ ConfSpells conf.now bits.entry }
{
    if usize::from(conf.num_plp) != conf.plps.len() {
        return false;
    }
    let mut source = BitReader::new(bits);
    let Ok(front) = read_front(&mut source) else {
        return false;
    };
    if !is_front(&front, conf) {
        return false;
    }
    if !has_plps(&mut source, conf.plps.as_slice()) {
        return false;
    }
    let Ok(back) = read_back(&mut source) else {
        return false;
    };
    if back != u64::from(conf.fef_length_msb) {
        return false;
    }
    source.take(1).is_err()
}
