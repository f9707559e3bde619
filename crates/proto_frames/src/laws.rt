//! Laws of the definitions. None of these does anything.

ghost use Rattle.proto_frames.specs.Grammar.{FrameIsRead, ReadIsFrame, WrittenIsFrame};

/// What is read is a frame, each frame is read, whatever follows it, and what is written is one.
pub fn frames_are_read()
    ensures read { ReadIsFrame }
    ensures only { FrameIsRead }
    ensures written { WrittenIsFrame }
{}
