// Laws of the definitions. Their functions do nothing.
ghost use Rattle.site_frame.specs.Laws.{WrittenIsRead, OneRecord, NoRefusal, SpelledOrRefused, OneRefusal};
ghost use Rattle.site_frame.specs.Laws.{SpelledLength};
ghost use Rattle.site_frame.specs.Laws.{WrittenSpells, HeadLength, WrittenLength, BlocksInOrder, OneFrame};

use plp_config::emission_law;

/// What was written is read, whatever follows, and no record is a proper prefix of another.
pub fn reading_law()
    ensures read { WrittenIsRead }
    ensures one { OneRecord }
{}

/// How a record is written, and how many bytes it has: those of its sections together.
pub fn writing_law()
    ensures spells { WrittenSpells }
    ensures len { SpelledLength }
    ensures head { HeadLength }
    ensures written { WrittenLength }
    ensures blocks { BlocksInOrder }
{}

/// Bytes begin with a record or have one refusal, never both.
pub fn refusal_law()
    ensures never { NoRefusal }
    ensures either { SpelledOrRefused }
    ensures one { OneRefusal }
{}

/// No two frames leave at one moment.
pub fn place_law()
    ensures { OneFrame }
{
    emission_law();
}
