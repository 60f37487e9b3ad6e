// Laws of the definitions. Their functions do nothing.
ghost use Rattle.l1_signal.specs.Laws.{PreReadBack, PreReadSpelled, PreWritten, PreLength, PreBitsLength, ConfReadBack};
ghost use Rattle.l1_signal.specs.Laws.{ConfReadSpelled, ConfWritten, ConfLength, DynReadBack, DynReadSpelled};
ghost use Rattle.l1_signal.specs.Laws.{DynWritten};
ghost use Rattle.l1_signal.specs.Laws.{DynLength, PostLength, ConfPartLength, EndsInItsCrc, TablesAreRows};
ghost use Rattle.l1_signal.specs.Laws.{ConfAlone};

use bit_slice::crc32_law;

/// L1-pre: what spells it is read, whatever follows it, and what is read spells it. What is written spells it, as
/// [`crate::PRE_BITS`] bits.
pub fn pre_law()
    ensures back { PreReadBack }
    ensures spelled { PreReadSpelled }
    ensures written { PreWritten }
    ensures len { PreLength }
    ensures bits { PreBitsLength }
{
    crc32_law();
}

/// The same of the configurable part, [`crate::conf_len`] bits.
pub fn conf_law()
    ensures back { ConfReadBack }
    ensures spelled { ConfReadSpelled }
    ensures written { ConfWritten }
    ensures len { ConfLength }
{}

/// The same of the dynamic part, [`crate::dyn_len`] bits.
pub fn dyn_law()
    ensures back { DynReadBack }
    ensures spelled { DynReadSpelled }
    ensures written { DynWritten }
    ensures len { DynLength }
{}

/// L1-post of a frame has [`crate::post_len`] bits, of which the configurable part has [`crate::conf_len`], and passes
/// [`crate::check_post`].
pub fn post_law()
    ensures len { PostLength }
    ensures conf { ConfPartLength }
    ensures crc { EndsInItsCrc }
{
    crc32_law();
}

/// The tables that the code reads and writes by are those of the definitions.
pub fn table_law()
    ensures { TablesAreRows }
{}

/// Where each interleaving frame of a PLP is carried by one frame, L1 tells its number of TI-blocks.
pub fn alone_law()
    ensures { ConfAlone }
{}
