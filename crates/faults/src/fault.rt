//! Faults of inputs and of the program, and the line that tells one.

ghost use Rattle.std.specs.Prelude.{
  ◌≡◌,
  ◌≢◌,
  ◌++◌,
  ◌∷◌,
  codes,
  decimal,
  string_bytes,
  OnOk,
  option_to_list,
};
ghost use Rattle.faults.specs.Code.{
  argument_code,
  cause_code,
  inner_codes,
  line_code,
  line_inner_code,
};
ghost use Rattle.faults.specs.FaultLine.{codes_text, place_text, line_text, words_text};
ghost use Rattle.faults.specs.NoMemory.{no_memory};

use itoa::Buffer;
use pep_marker::MarkerFault;
use pep_require::RequireFault;
use pep_version::VersionFault;
use std::alloc::{AllocError, AllocFailed, Global};
use std::fmt;
use thiserror::Error;

/// Where a fault lies.
#[derive(Clone, Copy, Debug, PartialEq, Eq)]
pub enum Place {
    /// Neither in the environment nor in an input.
    Nowhere,
    /// In the environment that is handed in.
    Environment,
    /// In the input with this number, counted from 1.
    Input(u64),
}

/// What is wrong with a line.
#[derive(Clone, Copy, Debug, PartialEq, Eq, Error)]
pub enum LineFault {
    /// 31 to 40: the line is no requirement.
    #[error("{0}")]
    Requirement(RequireFault),
    /// 51: the line isn't UTF-8.
    #[error("not UTF-8")]
    NotUtf8,
    /// 28: the requirement has a marker that is undefined in the environment.
    #[error("a marker is undefined in the environment")]
    Undefined,
    /// 41: the line of a table file can't stand behind those before it.
    #[error("not a line that a table has there")]
    BadTable,
    /// 43: the line differs from that of the environment's header, in the text of a table that was
    /// made in another environment.
    #[error("of another environment")]
    OtherEnvironment,
}

impl LineFault {
    /// The code of the fault: 31 to 40, see [`RequireFault::code`], 51, 28, 41 or 43.
    pub fn code(self) -> u64
        ensures { result ≡ line_code self }
    {
        match self {
            LineFault::Requirement(fault) => fault.code(),
            LineFault::NotUtf8 => 51,
            LineFault::Undefined => 28,
            LineFault::BadTable => 41,
            LineFault::OtherEnvironment => 43,
        }
    }

    /// The code of the fault inside it, of a clause or of a marker: see
    /// [`RequireFault::inner_code`].
    pub fn inner_code(self) -> Option<u64>
        ensures { result ≡ line_inner_code self }
    {
        match self {
            LineFault::Requirement(fault) => fault.inner_code(),
            LineFault::NotUtf8
            | LineFault::Undefined
            | LineFault::BadTable
            | LineFault::OtherEnvironment => None,
        }
    }
}

// Written out, since thiserror's `From` doesn't say which fault it gives.
impl From<RequireFault> for LineFault {
    ghost use Rattle.faults.specs.declared.fault.LineFault.TheVariants.{Requirement};

    ghost from_gives = { λ f e. e ≡ Requirement f };

    fn from(fault: RequireFault) -> LineFault {
        LineFault::Requirement(fault)
    }
}

impl From<AllocError> for LineFault {
    ghost use Rattle.pep_require.specs.declared.fault.RequireFault.TheVariants.{NoMemory};
    ghost use Rattle.faults.specs.declared.fault.LineFault.TheVariants.{Requirement};

    ghost from_gives = { λ _ e. e ≡ Requirement NoMemory };

    fn from(_: AllocError) -> LineFault {
        LineFault::Requirement(RequireFault::NoMemory)
    }
}

impl<T: Drop> From<AllocFailed<T>> for LineFault {
    ghost use Rattle.pep_require.specs.declared.fault.RequireFault.TheVariants.{NoMemory};
    ghost use Rattle.faults.specs.declared.fault.LineFault.TheVariants.{Requirement};

    ghost from_gives = { λ _ e. e ≡ Requirement NoMemory };

    fn from(_: AllocFailed<T>) -> LineFault {
        LineFault::Requirement(RequireFault::NoMemory)
    }
}

/// What is wrong with a version or a name on the command line.
#[derive(Clone, Copy, Debug, PartialEq, Eq, Error)]
pub enum ArgumentFault {
    /// 1 to 3: the version is refused.
    #[error("{0}")]
    Version(VersionFault),
    /// 21 or 29: the name is refused.
    #[error("{0}")]
    Name(MarkerFault),
}

impl ArgumentFault {
    /// The code of the fault: see [`VersionFault::code`] and [`MarkerFault::code`].
    pub fn code(self) -> u64
        ensures { result ≡ argument_code self }
    {
        match self {
            ArgumentFault::Version(fault) => fault.code(),
            ArgumentFault::Name(fault) => fault.code(),
        }
    }
}

/// What is wrong.
#[derive(Debug, Drop, Error)]
pub enum Cause {
    /// 51: the file isn't UTF-8.
    #[error("not UTF-8")]
    NotUtf8,
    /// 52: the file is no TOML document.
    #[error("not a TOML document")]
    NotToml,
    /// 53: the file has no key `project`.
    #[error("no `project`")]
    NoProject,
    /// 54: the dependencies that are asked for are dynamic, so the file doesn't have them.
    #[error("dynamic dependencies")]
    Dynamic,
    /// 55: a value of the file has another shape than it must have.
    #[error("a value of the wrong shape")]
    WrongShape,
    /// 56: the input has more than 16,777,216 bytes.
    #[error("more than 16,777,216 bytes")]
    TooLarge,
    /// 57: a line, or a text of a project file, is refused. Both are counted from 1.
    #[error("line {0}: {1}")]
    Line(u64, LineFault),
    /// 58: a read failed, or a file can't be opened.
    #[error("a read failed")]
    ReadFault,
    /// 59: the variables of the file make no environment.
    #[error("a faulty environment: {0}")]
    BadEnvironment(MarkerFault),
    /// 60: a growth was refused.
    #[error("out of memory")]
    NoMemory,
    /// 61: the words of the command line are refused, with the text that tells why.
    #[error("{0}")]
    BadWords(String),
    /// 62: a version or a name on the command line can't be read.
    #[error("a faulty argument: {0}")]
    BadArgument(ArgumentFault),
    /// 63: a write failed.
    #[error("a write failed")]
    WriteFault,
    /// 64: a table file has no requirements to show.
    #[error("a table has no requirements")]
    NoRequirements,
    /// 65: the file has no such dependency group.
    #[error("no such dependency group")]
    NoGroup,
    /// 66: two dependency groups of the file have one normalized name.
    #[error("two dependency groups of one name")]
    EqualGroups,
    /// 67: a dependency group comes back to itself by its includes.
    #[error("a dependency group includes itself")]
    GroupCycle,
}

impl Cause {
    /// The code of the cause, see `docs/CODES.md`. A refused line, a refused environment and a
    /// refused argument have codes inside it: see [`LineFault::code`], [`MarkerFault::code`] and
    /// [`ArgumentFault::code`].
    pub fn code(&self) -> u64
        ensures { result ≡ cause_code self.now }
    {
        match self {
            Cause::NotUtf8 => 51,
            Cause::NotToml => 52,
            Cause::NoProject => 53,
            Cause::Dynamic => 54,
            Cause::WrongShape => 55,
            Cause::TooLarge => 56,
            Cause::Line(_, _) => 57,
            Cause::ReadFault => 58,
            Cause::BadEnvironment(_) => 59,
            Cause::NoMemory => 60,
            Cause::BadWords(_) => 61,
            Cause::BadArgument(_) => 62,
            Cause::WriteFault => 63,
            Cause::NoRequirements => 64,
            Cause::NoGroup => 65,
            Cause::EqualGroups => 66,
            Cause::GroupCycle => 67,
        }
    }

    /// The cause of a fault of the line or text with this number, counted from 1: 57 with the code of the fault behind
    /// it. Lack of memory, 40, is that of the cause, 60, and has no number.
    pub fn on_line(number: u64, fault: LineFault) -> Cause
        ensures memory { fault ≡ LineFault.Requirement RequireFault.NoMemory → result ≡ Cause.NoMemory }
        ensures line { fault ≢ LineFault.Requirement RequireFault.NoMemory →
            result ≡ Cause.Line number fault }
        ensures apart { result ≢ Cause.ReadFault }
    {
        match fault {
            LineFault::Requirement(RequireFault::NoMemory) => Cause::NoMemory,
            fault => Cause::Line(number, fault),
        }
    }
}

impl From<AllocError> for Cause {
    ghost use Rattle.faults.specs.declared.fault.Cause.TheVariants.{NoMemory};

    ghost from_gives = { λ _ e. e ≡ NoMemory };

    fn from(_: AllocError) -> Cause {
        Cause::NoMemory
    }
}

impl<T: Drop> From<AllocFailed<T>> for Cause {
    ghost use Rattle.faults.specs.declared.fault.Cause.TheVariants.{NoMemory};

    ghost from_gives = { λ _ e. e ≡ NoMemory };

    fn from(_: AllocFailed<T>) -> Cause {
        Cause::NoMemory
    }
}

/// A refusal: its cause, and where it lies.
#[derive(Debug, Drop)]
pub struct Fault {
    pub place: Place,
    pub cause: Cause,
}

impl fmt::Display for Fault {
    fn fmt<W: fmt::Write>(&self, f: &mut fmt::Formatter<W>) -> fmt::Result {
        match self.place {
            Place::Nowhere => write!(f, "{}", self.cause),
            Place::Environment => write!(f, "environment: {}", self.cause),
            Place::Input(number) => write!(f, "input {number}: {}", self.cause),
        }
    }
}

impl std::error::Error for Fault {}

impl Fault {
    ghost use Rattle.std.specs.Prelude.{◌≡◌, IfOk, IfErr, string_bytes};
    ghost use Rattle.faults.specs.FaultLine.{fault_line};
    ghost use Rattle.faults.specs.InnerFault.{fault_of_argument};
    ghost use Rattle.faults.specs.declared.fault.Cause.TheVariants.{NoMemory};
    ghost use Rattle.faults.specs.declared.fault.Place.TheVariants.{Nowhere};

    /// Lack of memory, which has no place.
    pub fn no_memory() -> Fault
        ensures { result ≡ record { place = Nowhere; cause = NoMemory } }
    {
        Fault {
            place: Place::Nowhere,
            cause: Cause::NoMemory,
        }
    }

    /// The fault with this cause in this place. Lack of memory, 60, is that of [`Fault::no_memory`], in no place.
    pub fn of(place: Place, cause: Cause) -> Fault
        ensures cause { result.cause ≡ cause }
        ensures memory { cause ≡ Cause.NoMemory → result ≡ no_memory }
        ensures place { cause ≢ Cause.NoMemory → result.place ≡ place }
    {
        let place = match &cause {
            Cause::NoMemory => Place::Nowhere,
            _ => place,
        };
        Fault { place, cause }
    }

    /// A version or a name on the command line that can't be read: 62, in no place, with the code
    /// of the fault behind it. Lack of memory, 3 or 29, is that of [`Fault::no_memory`].
    pub fn of_argument(fault: ArgumentFault) -> Fault
        ensures { result ≡ fault_of_argument fault }
    {
        match fault {
            ArgumentFault::Version(VersionFault::NoMemory)
            | ArgumentFault::Name(MarkerFault::NoMemory) => Fault::no_memory(),
            fault => Fault {
                place: Place::Nowhere,
                cause: Cause::BadArgument(fault),
            },
        }
    }

    /// The line that tells the fault, with its line feed: `refused`, the place, the line and the
    /// codes from the outermost to the innermost. Behind the line of refused words comes the text
    /// that tells why.
    ///
    /// Its one refusal is `NoMemory`, 60.
    pub fn text(&self, alloc: Global) -> Result<String, Fault>
        ensures line { IfOk result (λ text. string_bytes text ≡ fault_line self.now) }
        ensures faults { IfErr result
            (λ fault. fault ≡ record { place = Nowhere; cause = NoMemory }) }
    {
        let mut text = String::from_str(alloc, "refused")?;
        push_place(&mut text, self.place)?;
        push_line(&mut text, &self.cause)?;
        text.push_str(" code")?;
        push_number(&mut text, self.cause.code())?;
        push_inner_codes(&mut text, &self.cause)?;
        text.push_str("\n")?;
        push_words(&mut text, &self.cause)?;
        Ok(text)
    }
}

impl From<AllocError> for Fault {
    ghost use Rattle.faults.specs.declared.fault.Cause.TheVariants.{NoMemory};
    ghost use Rattle.faults.specs.declared.fault.Place.TheVariants.{Nowhere};

    ghost from_gives = { λ _ e. e ≡ record { place = Nowhere; cause = NoMemory } };

    fn from(_: AllocError) -> Fault {
        Fault::no_memory()
    }
}

impl<T: Drop> From<AllocFailed<T>> for Fault {
    ghost use Rattle.faults.specs.declared.fault.Cause.TheVariants.{NoMemory};
    ghost use Rattle.faults.specs.declared.fault.Place.TheVariants.{Nowhere};

    ghost from_gives = { λ _ e. e ≡ record { place = Nowhere; cause = NoMemory } };

    fn from(_: AllocFailed<T>) -> Fault {
        Fault::no_memory()
    }
}

// Appends a space and a number.
fn push_number(text: &mut String, number: u64) -> Result<(), AllocError>
    ensures { OnOk result
        (string_bytes text.new ≡ string_bytes text.old ++ codes " " ++ decimal number) }
{
    let mut buffer = Buffer::new();
    text.push_str(" ")?;
    text.push_str(buffer.format(number))
}

// Appends the place.
fn push_place(text: &mut String, place: Place) -> Result<(), AllocError>
    ensures { OnOk result (string_bytes text.new ≡ string_bytes text.old ++ place_text place) }
{
    match place {
        Place::Nowhere => Ok(()),
        Place::Environment => text.push_str(" environment"),
        Place::Input(number) => {
            text.push_str(" input")?;
            push_number(text, number)
        }
    }
}

// Appends the number of the line, where a line is at fault.
fn push_line(text: &mut String, cause: &Cause) -> Result<(), AllocError>
    ensures { OnOk result (string_bytes text.new ≡ string_bytes text.old ++ line_text cause.now) }
{
    match cause {
        Cause::Line(number, _) => {
            text.push_str(" line")?;
            push_number(text, *number)
        }
        _ => Ok(()),
    }
}

// Appends the codes of a fault of a line.
fn push_line_codes(text: &mut String, fault: LineFault) -> Result<(), AllocError>
    ensures { OnOk result
        (string_bytes text.new
        ≡ string_bytes text.old
        ++ codes_text (line_code fault ∷ option_to_list (line_inner_code fault))) }
{
    push_number(text, fault.code())?;
    match fault.inner_code() {
        Some(inner) => push_number(text, inner),
        None => Ok(()),
    }
}

// Appends the codes of the faults inside a cause.
fn push_inner_codes(text: &mut String, cause: &Cause) -> Result<(), AllocError>
    ensures { OnOk result
        (string_bytes text.new ≡ string_bytes text.old ++ codes_text (inner_codes cause.now)) }
{
    match cause {
        Cause::Line(_, fault) => push_line_codes(text, *fault),
        Cause::BadArgument(fault) => push_number(text, fault.code()),
        Cause::BadEnvironment(fault) => push_number(text, fault.code()),
        _ => Ok(()),
    }
}

// Appends the text that tells why words are refused.
fn push_words(text: &mut String, cause: &Cause) -> Result<(), AllocError>
    ensures { OnOk result (string_bytes text.new ≡ string_bytes text.old ++ words_text cause.now) }
{
    match cause {
        Cause::BadWords(words) => text.push_str(words.as_str()),
        _ => Ok(()),
    }
}
