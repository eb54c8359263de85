// The target of a requirement line: clauses, in parentheses or not, or a URL (PEP 508, "Grammar").

ghost use Rattle.std.specs.Prelude.{◌≡◌, ◌≤◌, ◌⊎◌, ◌∷◌, IfErr, IfOk, length, not, true};
ghost use Rattle.std.specs.List.{prefix_len};
ghost use Rattle.texts.specs.Runs.{begins};
ghost use Rattle.texts.specs.Bytes.{is_blank_byte};
ghost use Rattle.pep_require.specs.LineParts.{RefusesTarget, TargetFrom, is_bare_byte};
ghost use Rattle.pep_require.specs.Requirement.{TargetParts};
ghost use Rattle.pep_require.specs.Way.Sink.{AddsTarget};

use crate::clauses::walk_clauses;
use crate::fault::RequireFault;
use crate::front::behind;
use crate::sink::LineSink;
use memchr::memchr2;
use texts::stripped;

// Whether a clause that is not in parentheses begins the text.
fn is_bare(text: &str) -> bool
    ensures { result ≡ begins is_bare_byte text.now }
{
    matches!(text.as_bytes(), [b'~' | b'=' | b'!' | b'<' | b'>', ..])
}

// How many bytes without white space stand in front.
fn url_run(text: &[u8]) -> usize
    ensures count { result ≡ prefix_len (λ b. not (is_blank_byte b)) text.now }
    ensures within { result ≤ length text.now }
{
    match memchr2(b' ', b'\t', text) {
        Some(at) => at,
        None => text.len(),
    }
}

// The target in front of the text, before which no white space stands, goes to the sink. What stands behind it is
// given.
#[inline(always)]
pub(crate) fn walk_target<'a, S: LineSink>(
    sink: &mut S,
    line: &mut S::Line,
    text: &'a str,
) -> Result<&'a str, RequireFault>
    ensures same { sink.new ≡ sink.old }
    ensures ok { IfOk result (λ rest. (t : TargetParts) × TargetFrom text.now t rest.now
        × AddsTarget (S.holds sink.old line.old) (S.holds sink.old line.new) t) }
    ensures refused { IfErr result (λ e. (e ≡ RequireFault.NoMemory)
        ⊎ RefusesTarget text.now e) }
{
    // Most targets are these.
    if is_bare(text) {
        return walk_clauses(sink, line, text, false);
    }
    if let Some(rest) = behind(text, '@') {
        return walk_url(sink, line, rest);
    }
    if let Some(rest) = behind(text, '(') {
        return walk_closed(sink, line, rest);
    }
    Ok(text)
}

// The clauses behind a `(`, and the `)` behind them.
fn walk_closed<'a, S: LineSink>(
    sink: &mut S,
    line: &mut S::Line,
    text: &'a str,
) -> Result<&'a str, RequireFault>
    ensures same { sink.new ≡ sink.old }
    ensures ok { IfOk result (λ rest. (t : TargetParts) × TargetFrom (40 ∷ text.now) t rest.now
        × AddsTarget (S.holds sink.old line.old) (S.holds sink.old line.new) t) }
    ensures refused { IfErr result (λ e. (e ≡ RequireFault.NoMemory)
        ⊎ RefusesTarget (40 ∷ text.now) e) }
{
    let inside = walk_clauses(sink, line, text, true)?;
    match behind(inside, ')') {
        Some(rest) => Ok(rest),
        None => Err(RequireFault::Trailing),
    }
}

// The URL behind an `@`, up to the next white space.
fn walk_url<'a, S: LineSink>(
    sink: &mut S,
    line: &mut S::Line,
    text: &'a str,
) -> Result<&'a str, RequireFault>
    ensures same { sink.new ≡ sink.old }
    ensures ok { IfOk result (λ rest. (t : TargetParts) × TargetFrom (64 ∷ text.now) t rest.now
        × AddsTarget (S.holds sink.old line.old) (S.holds sink.old line.new) t) }
    ensures refused { IfErr result (λ e. (e ≡ RequireFault.NoMemory)
        ⊎ RefusesTarget (64 ∷ text.now) e) }
{
    let text = stripped(text);
    let (written, rest) = text.split_at(url_run(text.as_bytes()));
    sink.url(line, written)?;
    Ok(rest)
}
