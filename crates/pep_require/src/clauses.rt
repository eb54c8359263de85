// The clauses of a line (PEP 508, "Grammar"), read from left to right. No text is copied.

ghost use Rattle.std.specs.Prelude.{◌≡◌, ◌⊎◌, if◌then◌else◌, IfErr, IfOk, List};
ghost use Rattle.specifiers.specs.Clause.{Clause as ClauseParts};
ghost use Rattle.pep_require.specs.LineParts.{BoundsFrom, RefusesBounds, is_end};
ghost use Rattle.pep_require.specs.Way.Sink.{AddsClauses};

use crate::fault::RequireFault;
use crate::front::behind;
use crate::sink::LineSink;
use texts::stripped;

// What ends a list of clauses within the line: `)` where it began with `(`, `;` where it didn't.
fn end_byte(closed: bool) -> u8
    ensures { result ≡ (if closed then 41 else 59) }
{
    if closed { b')' } else { b';' }
}

// Whether a list of clauses ends here: at the end of the line, and else at its end byte.
fn is_end(closed: bool, text: &str) -> bool
    ensures { result ≡ is_end closed text.now }
{
    let end = end_byte(closed);
    match text.as_bytes() {
        [] => true,
        [first, ..] => *first == end,
    }
}

// The clauses in front of the text, one or more, joined by `,`, go to the sink. What stands behind them is given; a `,`
// behind the last one is dropped. The faults are those of the first clause that is refused.
#[inline(always)]
pub(crate) fn walk_clauses<'a, S: LineSink>(
    sink: &mut S,
    line: &mut S::Line,
    text: &'a str,
    closed: bool,
) -> Result<&'a str, RequireFault>
    ensures same { sink.new ≡ sink.old }
    ensures ok { IfOk result (λ rest. (cs : List ClauseParts)
        × BoundsFrom closed text.now cs rest.now
        × AddsClauses (S.holds sink.old line.old) (S.holds sink.old line.new) cs) }
    ensures refused { IfErr result (λ e. (e ≡ RequireFault.NoMemory)
        ⊎ RefusesBounds closed text.now e) }
{
    let mut left = text;
    loop {
        let rest = sink.clause(line, left)?;
        let Some(following) = behind(rest, ',') else {
            return Ok(rest);
        };
        left = stripped(following);
        if is_end(closed, left) {
            return Ok(left);
        }
    }
}
