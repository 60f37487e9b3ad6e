// Laws of the frames that are made. Their functions do nothing.
ghost use Rattle.mended_frames.specs.Laws.{MadePass, MadeRise, MadeAreNear};

/// Each frame passes our six tests as the frame of its number, behind the frames that were made before.
pub fn pass_law()
    ensures { MadePass }
{}

/// The numbers of the frames rise.
pub fn rise_law()
    ensures { MadeRise }
{}

/// No packet is more than 14 superframes behind the one before, with the superframes of a timestamp alone.
pub fn near_law()
    ensures { MadeAreNear }
{}
