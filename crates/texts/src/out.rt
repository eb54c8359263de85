//! Where a text goes that is written part by part.

ghost use Rattle.std.specs.Prelude.{◌≡◌, ◌++◌, OnErr, OnOk};
ghost use Rattle.texts.specs.TextOut.{Extends};

use std::alloc::AllocError;

/// Takes a text part by part: a `String` in memory, or an output of one's own, as one that writes to a device or counts
/// bytes, for which the trait is implemented. What goes wrong is told by the type: only a `String` wants memory.
pub trait TextOut {
    ghost use Rattle.std.specs.Prelude.{List, ℕ};

    /// Why a part isn't taken.
    type Fault: Drop;

    /// Whether it is told what was taken. A device may not tell.
    ghost tells: { Type 0 };

    /// What was taken so far.
    ghost written: { Self → List ℕ };

    /// Takes one part more of the text. A refusal leaves what was taken, with perhaps some bytes behind it.
    fn put_str(&mut self, part: &str) -> Result<(), Self::Fault>
        ensures ok { OnOk result (tells → written self.new ≡ written self.old ++ part.now) }
        ensures kept { OnErr result (tells → Extends (written self.old) (written self.new)) };
}

impl TextOut for String {
    ghost use Rattle.std.specs.Prelude.{⊤, string_bytes};

    type Fault = AllocError;

    ghost tells = { ⊤ };

    ghost written = { string_bytes };

    fn put_str(&mut self, part: &str) -> Result<(), AllocError> {
        self.push_str(part)
    }
}
