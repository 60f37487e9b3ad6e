// A configuration that is filled in, a line at a time.
ghost use Rattle.std.specs.Prelude.{◌≡◌, ℕ, ◌<◌, ◌-◌, ◌∷◌, [], length, OnOk};
ghost use Rattle.plp_config.specs.Plps.{type_number};
ghost use Rattle.config_text.specs.ConfigText.{first_lines};
ghost use Rattle.config_text.specs.Fields.{fields_at, frame_fields, start_fields, network_fields, l1_fields};
ghost use Rattle.config_text.specs.Fields.{plp_fields};
ghost use Rattle.config_text.specs.Rows.{plp_row};
ghost use Rattle.plp_config.specs.Tables.{bw, plp_cod, plp_mod, plp_fec_type};
ghost use Rattle.config_text.specs.Drafts.{Puts};
ghost use Rattle.config_text.specs.Words.{first_values, row_of, FitFields};

use crate::values::MOST_FIELDS;
use bit_slice::OutOfMemory;
use plp_config::{Band, Config, FecSize, L1Numbers, Modulation, Plp, PlpList, PlpType, Rate};
use std::alloc::Global;

type Values = [u64; MOST_FIELDS];

// The bandwidth at a place of its list.
fn band_of(place: u64) -> Band
    requires { place < 6 }
    ensures { bw result ≡ place }
{
    match place {
        0 => Band::Mhz1_7,
        1 => Band::Mhz5,
        2 => Band::Mhz6,
        3 => Band::Mhz7,
        4 => Band::Mhz8,
        _ => Band::Mhz10,
    }
}

// The type of a PLP.
fn type_of(place: u64) -> PlpType
    requires { place < 3 }
    ensures { type_number result ≡ place }
{
    match place {
        0 => PlpType::Common,
        1 => PlpType::Type1,
        _ => PlpType::Type2,
    }
}

// The code rate.
fn rate_of(place: u64) -> Rate
    requires { place < 6 }
    ensures { plp_cod result ≡ place }
{
    match place {
        0 => Rate::R1_2,
        1 => Rate::R3_5,
        2 => Rate::R2_3,
        3 => Rate::R3_4,
        4 => Rate::R4_5,
        _ => Rate::R5_6,
    }
}

// The constellation.
fn modulation_of(place: u64) -> Modulation
    requires { place < 4 }
    ensures { plp_mod result ≡ place }
{
    match place {
        0 => Modulation::Qpsk,
        1 => Modulation::Qam16,
        2 => Modulation::Qam64,
        _ => Modulation::Qam256,
    }
}

// The size of a block.
fn size_of(place: u64) -> FecSize
    requires { place < 2 }
    ensures { plp_fec_type result ≡ place }
{
    match place {
        0 => FecSize::Short,
        _ => FecSize::Normal,
    }
}

/// No PLP, and zeros in every other place.
pub fn empty(alloc: Global) -> Config
    ensures { length result.plps ≡ 0 }
{
    Config {
        band: Band::Mhz1_7,
        ticks: 0,
        frames: 0,
        cells: 0,
        seconds: 0,
        subseconds: 0,
        utco: 0,
        pid: 0,
        cell_id: 0,
        network_id: 0,
        system_id: 0,
        frequency: 0,
        l1: L1Numbers {
            bwt_ext: 0,
            s2: 0,
            guard: 0,
            papr: 0,
            l1_mod: 0,
            l1_cod: 0,
            l1_fec: 0,
            post_size: 0,
            pilot: 0,
            tx_id: 0,
            symbols: 0,
            regen: 0,
        },
        sub_slices: 0,
        plps: PlpList::new(alloc),
    }
}

fn put_frame(config: &mut Config, values: &Values)
    requires fits { FitFields frame_fields (first_values 3 values.now) }
    requires plps { length config.old.plps ≡ 0 }
    ensures { (version : ℕ) → Puts version 2 (first_values 3 values.now) config.old config.new }
{
    config.ticks = values[0] as u32;
    config.frames = values[1] as u16;
    config.cells = values[2] as u32;
}

fn put_start(config: &mut Config, values: &Values)
    requires fits { FitFields start_fields (first_values 3 values.now) }
    requires plps { length config.old.plps ≡ 0 }
    ensures { (version : ℕ) → Puts version 3 (first_values 3 values.now) config.old config.new }
{
    config.seconds = values[0];
    config.subseconds = values[1] as u32;
    config.utco = values[2] as u16;
}

fn put_network(config: &mut Config, values: &Values)
    requires fits { FitFields network_fields (first_values 4 values.now) }
    requires plps { length config.old.plps ≡ 0 }
    ensures { (version : ℕ) → Puts version 5 (first_values 4 values.now) config.old config.new }
{
    config.cell_id = values[0] as u16;
    config.network_id = values[1] as u16;
    config.system_id = values[2] as u16;
    config.frequency = values[3] as u32;
}

fn put_l1(config: &mut Config, values: &Values)
    requires fits { FitFields l1_fields (first_values 12 values.now) }
    requires plps { length config.old.plps ≡ 0 }
    ensures { (version : ℕ) → Puts version 6 (first_values 12 values.now) config.old config.new }
{
    config.l1 = L1Numbers {
        bwt_ext: values[0] as u8,
        s2: values[1] as u8,
        guard: values[2] as u8,
        papr: values[3] as u8,
        l1_mod: values[4] as u8,
        l1_cod: values[5] as u8,
        l1_fec: values[6] as u8,
        post_size: values[7] as u32,
        pilot: values[8] as u8,
        tx_id: values[9] as u8,
        symbols: values[10] as u16,
        regen: values[11] as u8,
    };
}

fn plp_of(values: &Values) -> Plp
    requires { FitFields plp_fields (first_values 12 values.now) }
    ensures { plp_row result ≡ first_values 12 values.now }
{
    Plp {
        id: values[0] as u8,
        plp_type: type_of(values[1]),
        group: values[2] as u8,
        rate: rate_of(values[3]),
        modulation: modulation_of(values[4]),
        fec: size_of(values[5]),
        rotation: values[6] == 1,
        blocks: values[7] as u16,
        interleave: values[8] as u16,
        delete: values[9] == 0,
        bits_per_second: values[10] as u32,
        spread: values[11] as u8,
    }
}

/// The values of the line that is due behind so many, put into their places.
pub fn put(config: &mut Config, due: usize, values: &Values) -> Result<(), OutOfMemory>
    requires fits { FitFields (fields_at due) (row_of due values.now) }
    requires plps { length config.old.plps ≡ due - first_lines }
    // the first line tells the version
    ensures ok { OnOk result ((version : ℕ) → (due ≡ 0 → row_of due values.now ≡ version ∷ [])
        → Puts version due (row_of due values.now) config.old config.new) }
{
    match due {
        0 => {}
        1 => config.band = band_of(values[0]),
        2 => put_frame(config, values),
        3 => put_start(config, values),
        4 => config.pid = values[0] as u16,
        5 => put_network(config, values),
        6 => put_l1(config, values),
        7 => config.sub_slices = values[0] as u16,
        _ => config.plps.push(plp_of(values))?,
    }
    Ok(())
}
