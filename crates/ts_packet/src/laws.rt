// Laws of the definitions. Their functions do nothing.
ghost use Rattle.ts_packet.specs.Laws.{OnePacket, NoRefusal, SpelledOrRefused, OneRefusal, WrittenSpells, NullByPid};
ghost use Rattle.ts_packet.specs.Laws.{CanonicalNull, FieldsTold, PayloadLast};

/// A string spells one packet at most.
pub fn one_packet_law()
    ensures { OnePacket }
{}

/// What spells a packet is not refused.
pub fn no_refusal_law()
    ensures { NoRefusal }
{}

/// Each 188 bytes spell a packet or are refused.
pub fn spelled_or_refused_law()
    ensures { SpelledOrRefused }
{}

/// A string has one refusal at most.
pub fn one_refusal_law()
    ensures { OneRefusal }
{}

/// What was written spells what was to be written. So `read` gives it, by its clause `every`.
pub fn written_spells_law()
    ensures { WrittenSpells }
{}

/// A packet is null if its PID is that of null packets.
pub fn null_by_pid_law()
    ensures { NullByPid }
{}

/// The canonical null packet is null, and is spelled with a payload of 184 bytes 0xFF.
pub fn canonical_null_law()
    ensures { CanonicalNull }
{}

/// The fields that bytes tell are those of the packet that they spell.
pub fn fields_told_law()
    ensures { FieldsTold }
{}

/// The payload is the end of the packet.
pub fn payload_last_law()
    ensures { PayloadLast }
{}
