//! How deep a TOML document nests. What is read of it is dropped by calls in one another, level by level: so
//! the levels are counted before it is read, and the stack that a document takes is bounded.

ghost use Rattle.std.specs.Prelude.{◌≡◌, ◌≤◌, ◌==◌, ◌||◌, None, Some, drop, false, if◌then◌else◌, length, take};
ghost use Rattle.std.specs.List.{All};
ghost use Rattle.documents.specs.LevelViews.{levels_of};
ghost use Rattle.documents.specs.Nesting.{
  Levels,
  after,
  at_closing,
  at_dot,
  at_line_feed,
  at_opening,
  counted,
  counted_at,
  is_bare,
  is_mark,
  is_shallow,
  no_levels,
  stays_shallow,
};

use arrayvec::ArrayVec;
use memchr::memchr2;

/// The most levels.
pub(crate) const LEVEL_LIMIT: usize = 700;

/// The most brackets in one another.
pub(crate) const BRACKET_LIMIT: usize = 80;

/// What the next byte of a document stands in.
#[derive(Clone, Copy)]
pub(crate) enum Context {
    /// Outside strings and comments.
    Bare,
    /// In a comment.
    Comment,
    /// Behind the first quote of a string.
    OneQuote(u8),
    /// Behind two quotes: an empty string, or one of several lines.
    TwoQuotes(u8),
    /// In a string of one line.
    Line(u8),
    /// Behind the backslash of such a string.
    LineEscape,
    /// In a string of several lines, behind that many quotes in turn.
    Lines(u8, u8),
    /// Behind the backslash of such a string.
    LinesEscape,
    /// Behind the three quotes that end such a string, and that many more, which belong to it.
    Closed(u8, u8),
}

// What stands behind a byte outside strings and comments.
#[inline(always)]
fn after_bare(byte: u8) -> Context
    ensures { result ≡ after Context.Bare byte }
{
    match byte {
        b'#' => Context::Comment,
        b'"' | b'\'' => Context::OneQuote(byte),
        _ => Context::Bare,
    }
}

// Whether a byte that stands there lies outside strings and comments, or ends a comment.
#[inline(always)]
fn is_bare(context: Context, byte: u8) -> bool
    ensures { result ≡ is_bare context byte }
{
    match context {
        Context::Bare => true,
        Context::Comment => byte == b'\n',
        Context::TwoQuotes(quote) => byte != quote,
        Context::Closed(quote, more) => byte != quote || more >= 2,
        _ => false,
    }
}

// .. behind a byte of a string of one line.
#[inline(always)]
fn after_in_line(quote: u8, byte: u8) -> Context
    ensures { result ≡ after (Context.Line quote) byte }
{
    if byte == quote {
        Context::Bare
    } else if byte == b'\\' && quote == b'"' {
        Context::LineEscape
    } else {
        Context::Line(quote)
    }
}

// .. behind a byte of a string of several lines.
#[inline(always)]
fn after_in_lines(quote: u8, quotes: u8, byte: u8) -> Context
    ensures { result ≡ after (Context.Lines quote quotes) byte }
{
    if byte == quote {
        if quotes >= 2 {
            Context::Closed(quote, 0)
        } else {
            Context::Lines(quote, quotes + 1)
        }
    } else if byte == b'\\' && quote == b'"' {
        Context::LinesEscape
    } else {
        Context::Lines(quote, 0)
    }
}

// What the byte behind this one stands in.
#[inline(always)]
fn after(context: Context, byte: u8) -> Context
    ensures { result ≡ after context byte }
{
    match context {
        Context::Bare => after_bare(byte),
        Context::Comment if byte == b'\n' => Context::Bare,
        Context::Comment => Context::Comment,
        Context::OneQuote(quote) if byte == quote => Context::TwoQuotes(quote),
        Context::OneQuote(quote) | Context::Line(quote) => after_in_line(quote, byte),
        Context::TwoQuotes(quote) if byte == quote => Context::Lines(quote, 0),
        Context::TwoQuotes(_) => after_bare(byte),
        Context::LineEscape => Context::Line(b'"'),
        Context::Lines(quote, quotes) => after_in_lines(quote, quotes, byte),
        Context::LinesEscape => Context::Lines(b'"', 0),
        Context::Closed(quote, more) if byte == quote && more < 2 => Context::Closed(
            quote,
            more + 1,
        ),
        Context::Closed(..) => after_bare(byte),
    }
}

/// How many levels there are at a place of the text.
#[derive(Drop)]
pub(crate) struct LevelCount {
    /// Those of the header above, of all open brackets, and of the keys in front of them and here.
    here: usize,
    /// The same without the key here.
    base: usize,
    /// For each open bracket the base in front of it.
    outer: ArrayVec<usize, BRACKET_LIMIT>,
    /// Whether an `=` stands in front, so that a bracket is that of a value and not of a header.
    is_value: bool,
}

impl LevelCount {
    fn new() -> LevelCount
        ensures { levels_of result ≡ no_levels }
    {
        LevelCount {
            here: 0,
            base: 0,
            outer: ArrayVec::new(),
            is_value: false,
        }
    }

    // Counts a dot, unless there are too many levels.
    fn dot(&mut self) -> bool
        ensures { (if result then Some (levels_of self.new) else None) ≡ at_dot (levels_of self.old) }
    {
        if self.here >= LEVEL_LIMIT {
            return false;
        }
        self.here += 1;
        true
    }

    // Counts an opening bracket, unless there are too many levels, or too many brackets.
    fn open(&mut self) -> bool
        ensures { (if result then Some (levels_of self.new) else None) ≡ at_opening (levels_of self.old) }
    {
        if !self.is_value {
            self.here = 1;
            return true;
        }
        if self.here >= LEVEL_LIMIT || self.outer.len() >= BRACKET_LIMIT {
            return false;
        }
        self.outer.push(self.base);
        self.here += 1;
        self.base = self.here;
        true
    }

    // Takes back what a bracket and its key have added.
    fn close(&mut self)
        ensures { levels_of self.new ≡ at_closing (levels_of self.old) }
    {
        if let Some(base) = self.outer.pop() {
            self.here = base;
            self.base = base;
        }
    }

    // Begins a line, unless brackets are open.
    fn end_line(&mut self)
        ensures { levels_of self.new ≡ at_line_feed (levels_of self.old) }
    {
        if !self.outer.is_empty() {
            return;
        }
        if self.is_value {
            self.here = self.base;
        } else {
            self.base = self.here;
        }
        self.is_value = false;
    }

    // Counts a byte outside strings and comments.
    #[inline(always)]
    fn count(&mut self, byte: u8) -> bool
        ensures { (if result then Some (levels_of self.new) else None)
            ≡ counted (levels_of self.old) byte }
    {
        match byte {
            b'[' | b'{' => return self.open(),
            b']' | b'}' => self.close(),
            b'.' => return self.dot(),
            b',' => self.here = self.base,
            b'=' => self.is_value = true,
            b'\n' => self.end_line(),
            _ => {}
        }
        true
    }

    // Counts any byte.
    #[inline(always)]
    fn count_at(&mut self, context: Context, byte: u8) -> bool
        ensures { (if result then Some (levels_of self.new) else None)
            ≡ counted_at context (levels_of self.old) byte }
    {
        if is_bare(context, byte) {
            self.count(byte)
        } else {
            true
        }
    }
}

// How many bytes in front are none of these two.
#[inline(always)]
fn run_before(first: u8, second: u8, bytes: &[u8]) -> usize
    ensures within { result ≤ length bytes.now }
    ensures others { All (λ b. (b == first || b == second) ≡ false) (take result bytes.now) }
{
    match memchr2(first, second, bytes) {
        Some(at) => at,
        None => bytes.len(),
    }
}

// Whether the byte begins, ends or counts something outside strings and comments.
#[inline(always)]
fn is_mark(byte: u8) -> bool
    ensures { result ≡ is_mark byte }
{
    matches!(
        byte,
        b'[' | b'{' | b']' | b'}' | b'.' | b',' | b'=' | b'\n' | b'#' | b'"' | b'\''
    )
}

// How many bytes in front are no marks.
#[inline(always)]
fn run_of_words(bytes: &[u8]) -> usize
    ensures within { result ≤ length bytes.now }
    ensures words { All (λ b. is_mark b ≡ false) (take result bytes.now) }
{
    let mut found = 0;
    for byte in bytes {
        if is_mark(*byte) {
            return found;
        }
        found += 1;
    }
    found
}

// What stands behind a string of one line whose first quote stands in front of the bytes, unless it is empty or
// has escapes: then what is in front of it.
#[inline(always)]
fn string_passed(quote: u8, bytes: &[u8]) -> (Context, &[u8])
    ensures within { length result.1.now ≤ length bytes.now }
    ensures same { (l : Levels) → stays_shallow (Context.OneQuote quote) l bytes.now
        ≡ stays_shallow result.0 l result.1.now }
{
    let run = run_before(quote, b'\\', bytes);
    let (_, rest) = bytes.split_at(run);
    if run > 0 {
        if let Some((last, others)) = rest.split_first() {
            if *last == quote {
                return (Context::Bare, others);
            }
        }
    }
    (Context::OneQuote(quote), bytes)
}

// How many bytes in front change nothing.
#[inline(always)]
fn run_passed(context: Context, bytes: &[u8]) -> usize
    ensures within { result ≤ length bytes.now }
    ensures same { (l : Levels) → stays_shallow context l bytes.now
        ≡ stays_shallow context l (drop result bytes.now) }
{
    match context {
        Context::Bare => run_of_words(bytes),
        Context::Comment => run_before(b'\n', b'\n', bytes),
        Context::Line(quote) => run_before(quote, b'\\', bytes),
        Context::Lines(quote, 0) => run_before(quote, b'\\', bytes),
        _ => 0,
    }
}

// Passes over bytes in front that count nothing.
#[inline(always)]
fn passed(context: Context, bytes: &[u8]) -> (Context, &[u8])
    ensures within { length result.1.now ≤ length bytes.now }
    ensures same { (l : Levels) → stays_shallow context l bytes.now
        ≡ stays_shallow result.0 l result.1.now }
{
    if let Context::OneQuote(quote) = context {
        return string_passed(quote, bytes);
    }
    let (_, rest) = bytes.split_at(run_passed(context, bytes));
    (context, rest)
}

/// Whether nowhere in the document are there too many levels, or too many open brackets.
pub(crate) fn is_shallow(bytes: &[u8]) -> bool
    ensures { result ≡ is_shallow bytes.now }
{
    let mut count = LevelCount::new();
    let mut context = Context::Bare;
    let mut rest = bytes;
    while let Some((first, others)) = rest.split_first() {
        if !count.count_at(context, *first) {
            return false;
        }
        (context, rest) = passed(after(context, *first), others);
    }
    true
}
