//! Laws, each the contract of a function that does nothing.

ghost use Rattle.frame_memory.specs.flat_frames.Shapes.{PiecesLieApart, FramesAreSmall};
ghost use Rattle.frame_memory.specs.flat_frames.Frames.{FramesStay, SlotsArePut, ArgumentsArePut, WordsAreKept, RegistersArePut};

/// The pieces of a frame lie apart in it, and a frame is no larger than it need be.
pub fn pieces_lie_apart()
    ensures pieces { PiecesLieApart }
    ensures small { FramesAreSmall }
{}

/// A word that is put in a slot or an argument place stands there for its content, and all else is as before.
pub fn frames_are_written()
    ensures stay { FramesStay }
    ensures slots { SlotsArePut }
    ensures arguments { ArgumentsArePut }
    ensures words { WordsAreKept }
    ensures registers { RegistersArePut }
{}
