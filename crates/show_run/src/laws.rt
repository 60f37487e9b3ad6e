// Laws of the definitions. Their functions do nothing.
ghost use Rattle.show_run.specs.Laws.{OneEnd, EachEnds, OneRecordsEnd, EachRecordsEnd};

use site_frame::{reading_law, refusal_law};
use t2mi_packet::{
    no_refusal_law, one_packet_law, one_refusal_law, packet_length_law, spelled_or_refused_law,
};

/// The bytes of a file of packets decide how a run over it must end.
pub fn packets_end_law()
    ensures one { OneEnd }
    ensures each { EachEnds }
{
    one_packet_law();
    no_refusal_law();
    one_refusal_law();
    packet_length_law();
    spelled_or_refused_law();
}

/// The bytes of a file of records decide how a run over it must end.
pub fn records_end_law()
    ensures one { OneRecordsEnd }
    ensures each { EachRecordsEnd }
{
    reading_law();
    refusal_law();
}
