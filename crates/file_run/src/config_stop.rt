// Why a file gives no configuration or no plan.
use config_text::TextWhy;
use plp_config::CapacityFault;

/// Why a file gives no configuration that satisfies the rules.
#[derive(Clone, Copy, Debug, PartialEq, Eq)]
pub enum ConfigCause {
    /// The text is refused at a line, counted from 1 with skipped ones; at line 0 for its length.
    Text { line: u32, why: TextWhy },
    /// A rule fails, and this is the first place where it does, if it is one of the PLPs.
    Rule { rule: u8, plp: Option<u8> },
}

/// Why a file gives no configuration or no plan.
#[derive(Clone, Copy, Debug, PartialEq, Eq)]
pub enum ConfigStop {
    /// The configuration is refused.
    Refused(ConfigCause),
    /// It fails a capacity test.
    Lacks(CapacityFault),
    /// The file could not be opened or read.
    ReadFault,
    /// No memory was found.
    OutOfMemory,
}
