// Bandwidths, and the units of time that belong to each.
ghost use Rattle.std.specs.Prelude.{◌≡◌, ◌≤◌};
ghost use Rattle.plp_config.specs.Tables.{bw, subseconds_per_second, subseconds_per_tick, greatest_ticks};

/// The bandwidth of the channel (EN 302 755, clause 9.5), in the order of bw.
#[derive(Clone, Copy, Debug, PartialEq, Eq)]
pub enum Band {
    /// 1.7 MHz.
    Mhz1_7,
    /// 5 MHz.
    Mhz5,
    /// 6 MHz.
    Mhz6,
    /// 7 MHz.
    Mhz7,
    /// 8 MHz.
    Mhz8,
    /// 10 MHz.
    Mhz10,
}

impl Band {
    /// bw of a timestamp (TS 102 773, clause 5.2.7).
    pub fn bw(self) -> u8
        ensures value { result ≡ bw self }
        ensures small { result ≤ 5 }
    {
        self as u8
    }

    /// Subseconds in a second (TS 102 773, clause 5.2.7).
    pub fn subseconds_per_second(self) -> u32
        ensures value { result ≡ subseconds_per_second self }
        ensures least { 40000000 ≤ result }
        ensures greatest { result ≤ 131000000 }
    {
        match self {
            Band::Mhz1_7 => 131_000_000,
            Band::Mhz5 => 40_000_000,
            Band::Mhz6 => 48_000_000,
            Band::Mhz7 => 56_000_000,
            Band::Mhz8 => 64_000_000,
            Band::Mhz10 => 80_000_000,
        }
    }

    /// Subseconds in an elementary period T (EN 302 755, clause 9.5).
    pub fn subseconds_per_tick(self) -> u32
        ensures value { result ≡ subseconds_per_tick self }
        ensures least { 7 ≤ result }
        ensures greatest { result ≤ 71 }
    {
        match self {
            Band::Mhz1_7 => 71,
            Band::Mhz5 | Band::Mhz6 | Band::Mhz7 | Band::Mhz8 | Band::Mhz10 => 7,
        }
    }

    // Elementary periods in 250 ms.
    pub(crate) fn greatest_ticks(self) -> u32
        ensures value { result ≡ greatest_ticks self }
        ensures greatest { result ≤ 2857142 }
    {
        match self {
            Band::Mhz1_7 => 461_267,
            Band::Mhz5 => 1_428_571,
            Band::Mhz6 => 1_714_285,
            Band::Mhz7 => 2_000_000,
            Band::Mhz8 => 2_285_714,
            Band::Mhz10 => 2_857_142,
        }
    }
}
