use crate::fault::ClauseFault;
use pep_version::Version;
use texts::stripped;

/// An operator of a version specifier clause (PEP 440, "Version specifiers"): `~=`, `==`, `!=`,
/// `<=`, `>=`, `<`, `>` and `===`, in this order.
#[derive(Clone, Copy, Debug, PartialEq, Eq)]
pub enum Op {
    Compatible,
    Equal,
    NotEqual,
    AtMost,
    AtLeast,
    Less,
    More,
    Exact,
}

/// Where the versions begin that the clause of an operator and a version admits, or with `!=` leaves out (see
/// [`Op::begin`]).
#[derive(Clone, Copy, Debug, PartialEq, Eq)]
pub enum Begin {
    /// Under all versions.
    Least,
    /// Directly before the version.
    Version,
    /// Behind the version, as `>` wants it (PEP 440, "Exclusive ordered comparison").
    Greater,
}

/// Where these versions end (see [`Op::end`]).
#[derive(Clone, Copy, Debug, PartialEq, Eq)]
pub enum End {
    /// Directly behind the version and all its labels.
    Version,
    /// The same, but behind the label alone where the version has one (PEP 440, "Version matching").
    Matching,
    /// Before the version, as `<` wants it (PEP 440, "Exclusive ordered comparison").
    Less,
    /// Behind all versions that begin with its release but the last number (PEP 440, "Compatible release").
    Prefix,
    /// Above all versions.
    All,
}

impl Op {
    ghost use Rattle.std.specs.Prelude.{
      ◌≡◌,
      ◌≢◌,
      ◌≤◌,
      ◌<◌,
      ◌↔◌,
      ◌||◌,
      [],
      IfErr,
      IfOk,
      IsOk,
      IsTrue,
      None,
      Ok,
      length,
    };
    ghost use Rattle.pep_version.specs.Version.{Version};
    ghost use Rattle.specifiers.specs.Clause.{
      Prefix,
      operator_of,
      operator_text,
      prefix_clause,
      version_clause,
    };
    ghost use Rattle.specifiers.specs.Front.{OperatorFrom};
    ghost use Rattle.specifiers.specs.Operator.{
      begin_of,
      end_of,
      least_numbers,
      leaves_out,
      of_prefix,
      takes_label,
      takes_prefix,
    };
    ghost use Rattle.texts.specs.Lists.{is_empty};
    ghost use Rattle.texts.specs.Runs.{without_leading_blanks};

    /// The longest operator that the text begins with (PEP 440, "Version specifiers").
    #[inline(always)]
    pub fn at_front(text: &[u8]) -> Option<Op>
        ensures { result ≡ operator_of text.now }
    {
        match text {
            [b'=', b'=', b'=', ..] => Some(Op::Exact),
            [b'~', b'=', ..] => Some(Op::Compatible),
            [b'=', b'=', ..] => Some(Op::Equal),
            [b'!', b'=', ..] => Some(Op::NotEqual),
            [b'<', b'=', ..] => Some(Op::AtMost),
            [b'>', b'=', ..] => Some(Op::AtLeast),
            [b'<', ..] => Some(Op::Less),
            [b'>', ..] => Some(Op::More),
            _ => None,
        }
    }

    /// The longest operator in front of a text, and what stands behind it (PEP 440, "Version specifiers"). Spaces and
    /// tabs may stand before and behind the operator (PEP 508, "Grammar"), and are left out. A text in front of which
    /// no operator stands is refused with 11 `NoOperator`.
    #[inline(always)]
    pub fn in_front(text: &str) -> Result<(Op, &str), ClauseFault>
        ensures found { IfOk result (λ found. OperatorFrom text.now found.0 found.1.now) }
        ensures none { IfErr result (λ _. operator_of (without_leading_blanks text.now) ≡ None) }
        ensures faults { IfErr result (λ e. e ≡ ClauseFault.NoOperator) }
    {
        let text = stripped(text);
        let Some(operator) = Op::at_front(text.as_bytes()) else {
            return Err(ClauseFault::NoOperator);
        };
        let (_, operand) = text.split_at(operator.text().len());
        Ok((operator, stripped(operand)))
    }

    /// The operator as it is written (PEP 440, "Version specifiers").
    pub fn text(self) -> &'static str
        ensures { result.now ≡ operator_text self }
    {
        match self {
            Op::Compatible => "~=",
            Op::Equal => "==",
            Op::NotEqual => "!=",
            Op::AtMost => "<=",
            Op::AtLeast => ">=",
            Op::Less => "<",
            Op::More => ">",
            Op::Exact => "===",
        }
    }

    /// Where the versions begin that the clause of this operator and a version admits, or with `!=` leaves out (PEP
    /// 440, "Version specifiers"). `===` makes no clause of a version, and has [`Begin::Least`] and [`End::All`].
    #[inline(always)]
    pub fn begin(self) -> Begin
        ensures { result ≡ begin_of self }
    {
        match self {
            Op::AtMost | Op::Less | Op::Exact => Begin::Least,
            Op::Equal | Op::NotEqual | Op::AtLeast | Op::Compatible => Begin::Version,
            Op::More => Begin::Greater,
        }
    }

    /// Where the versions end that the clause of this operator and a version admits, or with `!=` leaves out (PEP 440,
    /// "Version specifiers"); see [`Op::begin`].
    #[inline(always)]
    pub fn end(self) -> End
        ensures { result ≡ end_of self }
    {
        match self {
            Op::AtMost => End::Version,
            Op::Equal | Op::NotEqual => End::Matching,
            Op::Less => End::Less,
            Op::Compatible => End::Prefix,
            Op::AtLeast | Op::More | Op::Exact => End::All,
        }
    }

    /// Whether a clause with this operator leaves out the versions that it speaks of, and admits the others: that of
    /// `!=` does (PEP 440, "Version exclusion").
    #[inline(always)]
    pub fn leaves_out(self) -> bool
        ensures { result ≡ leaves_out self }
    {
        self == Op::NotEqual
    }

    /// Whether a clause with this operator may have `.*` behind its release (PEP 440, "Version matching", "Version
    /// exclusion").
    #[inline(always)]
    pub fn takes_prefix(self) -> bool
        ensures prefix { result ≡ takes_prefix self }
        ensures clause { (p : Prefix) → (IsTrue result ↔ prefix_clause self p ≡ Ok (of_prefix self p)) }
    {
        match self {
            Op::Equal | Op::NotEqual => true,
            Op::Compatible | Op::AtMost | Op::AtLeast | Op::Less | Op::More | Op::Exact => false,
        }
    }

    /// Whether the version has no local version label, or the operator takes one (PEP 440, "Version matching", "Version
    /// exclusion").
    pub(crate) fn takes_label_of(self, version: &Version) -> bool
        ensures { result ≡ (takes_label self || is_empty version.now.label) }
    {
        self == Op::Equal || self == Op::NotEqual || version.label().is_empty()
    }

    /// How many release numbers this operator wants of a version at least: two with `~=` (PEP 440, "Compatible
    /// release"), one with the others. `===` makes a clause of no version.
    #[inline(always)]
    pub fn least_numbers(self) -> usize
        ensures numbers { result ≡ least_numbers self }
        ensures clause { (v : Version) → self ≢ Op.Exact → v.label ≡ [] → 0 < length v.release →
            (IsOk (version_clause self v) ↔ result ≤ length v.release) }
    {
        match self {
            Op::Compatible => 2,
            _ => 1,
        }
    }
}
