//! What is asked over a stream.

ghost use Rattle.std.specs.Prelude.{◌≡◌, List, Bool, IfErr, IfOk, OnErr};
ghost use Rattle.proto_base.specs.Texts.{Text};
ghost use Rattle.proto_serving.specs.Serving.{texts};

use crate::fault::TakeFault;
use std::alloc::Global;

/// What takes the contents of frames, one after another, and answers each.
pub trait Machine {
    /// From a state it may take a content, told whether another is waiting, answer with these
    /// replies, and be in a state.
    ghost steps: { Self → Text → Bool → List Text → Self → Type 0 };

    /// The contents that it does not take in a state.
    ghost refuses: { Self → Text → Type 0 };

    /// Whether it takes no more.
    ghost done: { Self → Bool };

    /// Whether it takes no more.
    fn is_done(&self) -> bool
        ensures { result ≡ done self.now };

    /// Takes a content, and answers the contents of the replies, in order. With `is_followed`,
    /// another message is waiting, so what is told of the state as a whole may wait for it. After a
    /// fault it is as before.
    fn take(
        &mut self,
        alloc: Global,
        content: &[u8],
        is_followed: bool,
    ) -> Result<Vec<Vec<u8>>, TakeFault>
        ensures step { IfOk result (λ replies.
            steps self.old content.now is_followed (texts replies.items) self.new) }
        ensures err { OnErr result (self.new ≡ self.old) }
        ensures refused { IfErr result
            (λ fault. fault ≡ TakeFault.Refused → refuses self.old content.now) };
}
