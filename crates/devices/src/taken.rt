//! What was taken so far, for proofs alone: nothing of it is kept at run time.

ghost use Rattle.std.specs.Prelude.{◌≡◌, ◌++◌, None};
ghost use Rattle.devices.specs.Way.Pieces.{marked};

use crate::device::Sink;
use boxcar::tag::{Names, Tag};

// What a sink tells, behind its mark.
struct Told;

impl<W: Sink> Names<W> for Told {
    ghost numbers = { λ sink. marked (W.written sink) };
}

// The mark of what isn't told.
struct Untold;

impl Names<()> for Untold {
    ghost numbers = { λ _. marked None };
}

// What was taken, and a part behind it.
#[derive(Drop)]
struct Longer<'a> {
    taken: &'a Tag,
    part: &'a str,
}

struct Behind;

impl<'a> Names<Longer<'a>> for Behind {
    ghost numbers = { λ l. l.taken.now.numbers ++ l.part.now };
}

/// What the sink tells, behind its mark.
#[inline(always)]
pub(crate) fn told_by<W: Sink>(sink: &W) -> Tag
    ensures { result.numbers ≡ marked (W.written sink.now) }
{
    Tag::of::<W, Told>(sink)
}

/// Nothing is told.
#[inline(always)]
pub(crate) fn nothing_told() -> Tag
    ensures { result.numbers ≡ marked None }
{
    Tag::of::<(), Untold>(&())
}

/// What was taken, with a part behind it.
#[inline(always)]
pub(crate) fn joined(taken: &Tag, part: &str) -> Tag
    ensures { result.numbers ≡ taken.now.numbers ++ part.now }
{
    Tag::of::<Longer, Behind>(&Longer { taken, part })
}
