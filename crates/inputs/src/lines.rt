//! The reader of a list's lines for all takers: what their texts are taken for is a taker's affair.

ghost use Rattle.std.specs.Prelude.{
  ◌≡◌,
  ◌≢◌,
  ◌⊎◌,
  ◌≤◌,
  ◌<◌,
  ◌==◌,
  ◌+◌,
  ◌++◌,
  ◌∷◌,
  [],
  List,
  ℕ,
  IfErr,
  IfOk,
  IfSome,
  OnOk,
  drop,
  get_or,
  length,
  option_map,
  take,
};
ghost use Rattle.std.specs.List.{slice_split};
ghost use Rattle.texts.specs.Limits.{line_limit};
ghost use Rattle.texts.specs.Way.Split.{left_parts};
ghost use Rattle.inputs.specs.Lists.{HasText, IsTextOn, content, is_skipped};
ghost use Rattle.texts.specs.Limits.{input_limit};
ghost use Rattle.inputs.specs.Refusal.{IsNoLine};
ghost use Rattle.inputs.specs.Way.Part.{lent, part_bytes};
ghost use Rattle.inputs.specs.Way.LineReading.{
  HasTaken,
  IsHeld,
  RefusesEnded,
  RefusesGrowth,
  RefusesHeld,
  RefusesLineBytes,
  RefusesList,
  RefusesPiece,
  RefusesWhole,
  TakesLine,
  TakesLines,
};

use faults::{Cause, LineFault};
use memchr::memchr;
use pep_require::RequireFault;
use std::alloc::Global;
use std::str;
use texts::{INPUT_LIMIT, LINE_LIMIT, without_outer_blanks};

/// Takes the texts of requirements, one after the other, wherever they come from.
pub(crate) trait Taker {
    ghost use Rattle.std.specs.Prelude.{List, ℕ};
    ghost use Rattle.faults.specs.declared.fault.LineFault.{LineFault};

    /// What is taken so far.
    type Taken: Drop;

    /// What a text makes of what was taken before it.
    ghost takes: { Self → List ℕ → Self.Taken → Self.Taken → Type 0 };

    /// Why a text is refused.
    ghost refuses: { Self → List ℕ → LineFault → Type 0 };

    /// What was taken before, and this text. What the taker is doesn't change: it may remember.
    fn take(&mut self, taken: Self::Taken, text: &str) -> Result<Self::Taken, LineFault>
        ensures same { self.new ≡ self.old }
        ensures ok { IfOk result (takes self.old text.now taken) }
        ensures refused { IfErr result (refuses self.old text.now) };
}

// The line without a carriage return at its end, and then without white space at both ends.
fn content(line: &str) -> &str
    ensures { result.now ≡ content line.now }
{
    let line = match line.as_bytes() {
        [front @ .., b'\r'] => line.split_at(front.len()).0,
        _ => line,
    };
    without_outer_blanks(line)
}

// Whether a line with this content is empty or a comment.
fn is_skipped(content: &[u8]) -> bool
    ensures { result ≡ is_skipped content.now }
{
    content.is_empty() || content.starts_with(b"#")
}

// The text of the requirement on a line, if the line isn't skipped.
#[inline(always)]
fn text_on(line: &str) -> Option<&str>
    ensures { IsTextOn line.now (option_map (λ text. text.now) result) }
{
    let content = content(line);
    if is_skipped(content.as_bytes()) {
        return None;
    }
    Some(content)
}

// Refuses a line of this many bytes where it is longer than a line may be.
#[inline(always)]
fn check_length(length: usize) -> Result<(), LineFault>
    ensures ok { OnOk result (length ≤ line_limit) }
    ensures refused { IfErr result (λ fault.
        (fault ≡ LineFault.Requirement RequireFault.LineTooLong) × (line_limit < length)) }
{
    if length > LINE_LIMIT {
        return Err(LineFault::Requirement(RequireFault::LineTooLong));
    }
    Ok(())
}

/// The text of the requirement on a line of a list, which is given without its line feed; nothing where the line is
/// empty or a comment. A carriage return at the line's end and white space at both ends are dropped.
///
/// The text is no requirement yet, see [`Requirement::read`](pep_require::Requirement::read). The refusals are
/// `LineTooLong`, 38, over 65,536 bytes, and `NotUtf8`, 51.
#[inline(always)]
pub fn text_of_line(line: &[u8]) -> Result<Option<&str>, LineFault>
    ensures ok { IfOk result (λ found. HasText line.now (option_map (λ text. text.now) found)) }
    ensures refused { IfErr result (IsNoLine line.now) }
{
    check_length(line.len())?;
    match str::from_utf8(line) {
        Ok(line) => Ok(text_on(line)),
        Err(_) => Err(LineFault::NotUtf8),
    }
}

// What stands in front of the line feed at this place of a text, and behind it.
#[inline(always)]
fn cut_text(text: &str, at: usize) -> (&str, &str)
    requires within { at < length text.now }
    requires feed { get_or text.now at 0 ≡ 10 }
    ensures front { result.0.now ≡ take at text.now }
    ensures behind { result.1.now ≡ drop (at + 1) text.now }
{
    let (front, _) = text.split_at(at);
    let (_, behind) = text.split_at(at + 1);
    (front, behind)
}

// Bytes of a list: a text, where the piece in which they stand is one, so that its encoding is checked once.
#[derive(Clone, Copy)]
enum Part<'a> {
    Text(&'a str),
    Bytes(&'a [u8]),
}

impl<'a> Part<'a> {
    // The bytes of a piece.
    fn of(piece: &'a [u8]) -> Part<'a>
        ensures { part_bytes result ≡ piece.now }
    {
        match str::from_utf8(piece) {
            Ok(text) => Part::Text(text),
            Err(_) => Part::Bytes(piece),
        }
    }

    fn bytes(self) -> &'a [u8]
        ensures { result.now ≡ part_bytes self.entry }
    {
        match self {
            Part::Text(text) => text.as_bytes(),
            Part::Bytes(bytes) => bytes,
        }
    }

    // What stands in front of the line feed at this place, and behind it.
    #[inline(always)]
    fn cut(self, at: usize) -> (Part<'a>, Part<'a>)
        requires within { at < length (part_bytes self) }
        requires feed { get_or (part_bytes self) at 0 ≡ 10 }
        ensures front { part_bytes result.0 ≡ take at (part_bytes self.entry) }
        ensures behind { part_bytes result.1 ≡ drop (at + 1) (part_bytes self.entry) }
    {
        match self {
            Part::Text(text) => {
                let (front, behind) = cut_text(text, at);
                (Part::Text(front), Part::Text(behind))
            }
            Part::Bytes(bytes) => {
                let (front, _) = bytes.split_at(at);
                let (_, behind) = bytes.split_at(at + 1);
                (Part::Bytes(front), Part::Bytes(behind))
            }
        }
    }

    // The text of the requirement on the line that these are: see `text_of_line`.
    #[inline(always)]
    fn text(self) -> Result<Option<&'a str>, LineFault>
        ensures ok { IfOk result (λ found. HasText (part_bytes self.entry)
            (option_map (λ text. text.now) found)) }
        ensures refused { IfErr result (IsNoLine (part_bytes self.entry)) }
    {
        match self {
            Part::Text(line) => {
                check_length(line.len())?;
                Ok(text_on(line))
            }
            Part::Bytes(line) => text_of_line(line),
        }
    }
}

// What was taken before, and the text on a line, if the line isn't skipped.
#[inline(always)]
fn take_line<T: Taker>(
    taker: &mut T,
    taken: T::Taken,
    line: Part<'_>,
) -> Result<T::Taken, LineFault>
    ensures same { taker.new ≡ taker.old }
    ensures ok { IfOk result (TakesLine (T.takes taker.old) (part_bytes line.entry) taken) }
    ensures refused { IfErr result (RefusesLineBytes (T.refuses taker.old) (part_bytes line.entry)) }
{
    match line.text() {
        Ok(Some(text)) => taker.take(taken, text),
        Ok(None) => Ok(taken),
        Err(fault) => Err(fault),
    }
}

// The line that goes on with this part, which may be no longer than a line is.
fn grown(held: Vec<u8>, part: &[u8]) -> Result<Vec<u8>, LineFault>
    requires { length held.items ≤ line_limit }
    ensures ok { IfOk result (λ line. (line.items ≡ held.items ++ part.now)
        × (length line.items ≤ line_limit)) }
    ensures refused { IfErr result (RefusesGrowth (held.items ++ part.now)) }
{
    check_length(held.len() + part.len())?;
    let mut line = held;
    line.extend_from_slice(part)?;
    Ok(line)
}

// What was taken before, and the text on the line that begins with what is held of it and ends with this part.
#[inline(never)]
fn take_grown<T: Taker>(
    taker: &mut T,
    taken: T::Taken,
    held: Vec<u8>,
    part: &[u8],
) -> Result<T::Taken, LineFault>
    requires { length held.items ≤ line_limit }
    ensures same { taker.new ≡ taker.old }
    ensures ok { IfOk result (TakesLine (T.takes taker.old) (held.items ++ part.now) taken) }
    ensures refused { IfErr result (RefusesWhole (T.refuses taker.old)
        (held.items ++ part.now)) }
{
    let line = grown(held, part)?;
    take_line(taker, taken, Part::Bytes(line.as_slice()))
}

// The same. A line of which nothing is held isn't copied.
#[inline(always)]
fn take_whole<T: Taker>(
    taker: &mut T,
    taken: T::Taken,
    held: Vec<u8>,
    part: Part<'_>,
) -> Result<T::Taken, LineFault>
    requires { length held.items ≤ line_limit }
    ensures same { taker.new ≡ taker.old }
    ensures ok { IfOk result (TakesLine (T.takes taker.old) (held.items ++ part_bytes part.entry)
        taken) }
    ensures refused { IfErr result (RefusesWhole (T.refuses taker.old)
        (held.items ++ part_bytes part.entry)) }
{
    if held.is_empty() {
        return take_line(taker, taken, part);
    }
    take_grown(taker, taken, held, part.bytes())
}

/// What there is of a list whose bytes come in pieces.
#[derive(Drop)]
pub(crate) struct LinesSoFar<A> {
    /// What is taken of the lines that have ended.
    pub(crate) taken: A,
    /// How many lines have ended.
    pub(crate) number: u64,
    /// What there is of the line that hasn't ended.
    pub(crate) held: Vec<u8>,
}

impl<A> LinesSoFar<A> {
    /// Before the first byte.
    pub(crate) fn new(alloc: Global, taken: A) -> Self
        ensures taken { result.taken ≡ taken }
        ensures number { result.number ≡ 0 }
        ensures held { result.held.items ≡ [] }
    {
        LinesSoFar {
            taken,
            number: 0,
            held: Vec::new(alloc),
        }
    }
}

// The lines with the one that ends with this part.
#[inline(always)]
fn take_ended<T: Taker>(
    alloc: Global,
    taker: &mut T,
    so_far: LinesSoFar<T::Taken>,
    part: Part<'_>,
) -> Result<LinesSoFar<T::Taken>, Cause>
    requires number { so_far.number ≤ input_limit }
    requires held { length so_far.held.items ≤ line_limit }
    ensures same { taker.new ≡ taker.old }
    ensures ok { IfOk result (λ new. TakesLine (T.takes taker.old)
        (so_far.held.items ++ part_bytes part.entry) so_far.taken new.taken) }
    ensures number { IfOk result (λ new. new.number ≡ so_far.number + 1) }
    ensures held { IfOk result (λ new. new.held.items ≡ []) }
    ensures refused { IfErr result (RefusesEnded (T.refuses taker.old) (so_far.number + 1)
        (so_far.held.items ++ part_bytes part.entry)) }
    ensures apart { IfErr result (λ cause. cause ≢ Cause.ReadFault) }
{
    let number = so_far.number + 1;
    match take_whole(taker, so_far.taken, so_far.held, part) {
        Ok(taken) => Ok(LinesSoFar {
            taken,
            number,
            held: Vec::new(alloc),
        }),
        Err(fault) => Err(Cause::on_line(number, fault)),
    }
}

// The lines with this part of the one that hasn't ended.
fn hold_part<A: Drop>(so_far: LinesSoFar<A>, part: &[u8]) -> Result<LinesSoFar<A>, Cause>
    requires number { so_far.number ≤ input_limit }
    requires held { length so_far.held.items ≤ line_limit }
    ensures taken { IfOk result (λ new. new.taken ≡ so_far.taken) }
    ensures number { IfOk result (λ new. new.number ≡ so_far.number) }
    ensures held { IfOk result (λ new. new.held.items ≡ so_far.held.items ++ part.now) }
    ensures bound { IfOk result (λ new. length new.held.items ≤ line_limit) }
    ensures refused { IfErr result (RefusesHeld (so_far.number + 1)
        (so_far.held.items ++ part.now)) }
    ensures apart { IfErr result (λ cause. cause ≢ Cause.ReadFault) }
{
    match grown(so_far.held, part) {
        Ok(held) => Ok(LinesSoFar {
            taken: so_far.taken,
            number: so_far.number,
            held,
        }),
        Err(fault) => Err(Cause::on_line(so_far.number + 1, fault)),
    }
}

// The first line of a part, and what stands behind its line feed: `None` where the part has none. It is
// `texts::first_part` by a search, which pays where parts are as long as lines.
#[inline(always)]
fn first_line<'a>(part: Part<'a>) -> (Part<'a>, Option<Part<'a>>)
    ensures parts { slice_split (λ b. b == 10) (part_bytes part.entry)
        ≡ part_bytes result.0 ∷ left_parts 10 (option_map lent result.1) }
    ensures shorter { IfSome (option_map lent result.1) (λ rest. length rest.now
        < length (part_bytes part.entry)) }
{
    match memchr(b'\n', part.bytes()) {
        Some(at) => {
            let (line, rest) = part.cut(at);
            (line, Some(rest))
        }
        None => (part, None),
    }
}

/// The lines with those of a piece. The cause is that of the first fault, in the order of the
/// bytes.
pub(crate) fn take_piece<T: Taker>(
    alloc: Global,
    taker: &mut T,
    so_far: LinesSoFar<T::Taken>,
    piece: &[u8],
) -> Result<LinesSoFar<T::Taken>, Cause>
    requires room { so_far.number + length piece.now ≤ input_limit }
    requires held { IsHeld so_far.held.items }
    ensures same { taker.new ≡ taker.old }
    ensures ok { IfOk result (λ new. HasTaken (T.takes taker.old)
        (so_far.held.items ++ piece.now) so_far.number so_far.taken new.number new.held.items
        new.taken) }
    ensures refused { IfErr result (RefusesPiece (T.refuses taker.old) so_far.number
        (so_far.held.items ++ piece.now)) }
    ensures apart { IfErr result (λ cause. cause ≢ Cause.ReadFault) }
{
    let mut so_far = so_far;
    let mut left = Some(Part::of(piece));
    while let Some(part) = left {
        let (line, after) = first_line(part);
        so_far = match after {
            Some(_) => take_ended(alloc, taker, so_far, line)?,
            None => hold_part(so_far, line.bytes())?,
        };
        left = after;
    }
    Ok(so_far)
}

/// What was taken before, and the text on the last line, which ends with the list.
pub(crate) fn take_last<T: Taker>(
    alloc: Global,
    taker: &mut T,
    so_far: LinesSoFar<T::Taken>,
) -> Result<T::Taken, Cause>
    requires number { so_far.number ≤ input_limit }
    requires held { length so_far.held.items ≤ line_limit }
    ensures same { taker.new ≡ taker.old }
    ensures ok { IfOk result (TakesLine (T.takes taker.old) so_far.held.items so_far.taken) }
    ensures refused { IfErr result (RefusesEnded (T.refuses taker.old) (so_far.number + 1)
        so_far.held.items) }
    ensures apart { IfErr result (λ cause. cause ≢ Cause.ReadFault) }
{
    match take_ended(alloc, taker, so_far, Part::Text("")) {
        Ok(new) => Ok(new.taken),
        Err(cause) => Err(cause),
    }
}

/// Why a list is refused that goes on behind its largest size, which ends with this piece.
pub(crate) fn refused_over<T: Taker>(
    alloc: Global,
    taker: &mut T,
    so_far: LinesSoFar<T::Taken>,
    piece: &[u8],
) -> Cause
    requires room { so_far.number + length piece.now ≤ input_limit }
    requires held { IsHeld so_far.held.items }
    ensures same { taker.new ≡ taker.old }
    ensures refused { (result ≡ Cause.TooLarge) ⊎ RefusesPiece (T.refuses taker.old)
        so_far.number (so_far.held.items ++ piece.now) result }
    ensures apart { result ≢ Cause.ReadFault }
{
    match take_piece(alloc, taker, so_far, piece) {
        Ok(_) => Cause::TooLarge,
        Err(cause) => cause,
    }
}

/// What was taken before, and the texts on the lines of a list, one after the other. The cause is
/// that of the first fault, in the order of the bytes: see [`list_of`](crate::list_of).
pub(crate) fn take_lines<T: Taker>(
    alloc: Global,
    taker: &mut T,
    taken: T::Taken,
    bytes: &[u8],
) -> Result<T::Taken, Cause>
    ensures same { taker.new ≡ taker.old }
    ensures ok { IfOk result (TakesLines (T.takes taker.old) bytes.now taken) }
    ensures refused { IfErr result (RefusesList (T.refuses taker.old) bytes.now) }
{
    let so_far = LinesSoFar::new(alloc, taken);
    if bytes.len() <= INPUT_LIMIT {
        let lines = take_piece(alloc, taker, so_far, bytes)?;
        return take_last(alloc, taker, lines);
    }
    let (read, _) = bytes.split_at(INPUT_LIMIT);
    Err(refused_over(alloc, taker, so_far, read))
}
