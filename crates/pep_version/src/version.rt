// A version, and its parts.

ghost use Rattle.std.specs.Prelude.{
  ◌≡◌,
  ◌↔◌,
  ◌++◌,
  map,
  string_bytes,
  IfErr,
  IfOk,
  IfSome,
  IsSome,
  IsTrue,
  OnErr,
  OnOk,
};
ghost use Rattle.std.specs.Char.{is_ascii_lowercase};
ghost use Rattle.std.specs.List.{All, list_all, list_any};
ghost use Rattle.pep_version.specs.Way.Slices.{AreReadable, version_of_slices};
ghost use Rattle.pep_version.specs.Way.Segments.{VersionOf};
ghost use Rattle.pep_version.specs.Spelling.{Reads};
ghost use Rattle.pep_version.specs.Final.{is_final};
ghost use Rattle.pep_version.specs.Text.{KeepsFront, normal_text};
ghost use Rattle.texts.specs.TextOut.{Extends};
ghost use Rattle.pep_version.specs.Version.{
  IsSegment,
  IsVersion,
  SegmentFits,
  is_pre_release,
  is_word,
  is_word_byte,
};
ghost use Rattle.pep_version.specs.View.{segment_of, version_of};

use crate::fault::VersionFault;
use crate::parts::{Label, Phase};
use crate::release::release_numbers;
use crate::segments::{label_segments, optional_number, pre_number, written_number};
use crate::slices::{Slices, slices_of};
use crate::text::{put_epoch, put_label, put_release, put_suffixes};
use std::alloc::{AllocError, Global};
use std::marker::Model;
use texts::{TextOut, trimmed};

/// A Python version (PEP 440): an epoch, a release, and the parts that may follow the release. Each
/// number is at most 18446744073709551615.
#[derive(Debug, Drop)]
pub struct Version {
    epoch: u64,
    release: Vec<u64>,
    pre: Option<(Phase, u64)>,
    post: Option<u64>,
    dev: Option<u64>,
    label: Vec<Label>,
}

impl Model for Version {
    ghost use Rattle.pep_version.specs.Version.{IsVersion, Version};
    ghost use Rattle.pep_version.specs.View.{version_of};

    ghost Value = { Version };

    ghost view = { λ a. version_of a.epoch a.release a.pre a.post a.dev a.label };

    ghost invariant = { λ a. IsVersion (version_of a.epoch a.release a.pre a.post a.dev a.label) };
}

fn is_word_byte(b: u8) -> bool
    ensures { result ≡ is_word_byte b }
{
    b.is_ascii_lowercase() || b.is_ascii_digit()
}

fn has_letter(word: &[u8]) -> bool
    ensures { result ≡ list_any is_ascii_lowercase word.now }
{
    word.iter().any(u8::is_ascii_lowercase)
}

fn has_word_bytes(word: &[u8]) -> bool
    ensures { result ≡ list_all is_word_byte word.now }
{
    word.iter().all(|b| is_word_byte(*b))
}

fn is_word(word: &[u8]) -> bool
    ensures { result ≡ is_word word.now }
{
    has_word_bytes(word) && has_letter(word)
}

fn is_segment(segment: &Label) -> bool
    ensures segment { IsTrue result ↔ IsSegment (segment_of segment.now) }
    ensures fits { SegmentFits (segment_of segment.now) }
{
    match segment {
        Label::Number(n) => {
            let _number = *n;
            true
        }
        Label::Word(word) => is_word(word.as_bytes()),
    }
}

fn is_label(label: &[Label]) -> bool
    ensures segments { IsTrue result ↔ All (λ s. IsSegment (segment_of s)) label.now }
    ensures fits { IsTrue result → All (λ s. SegmentFits (segment_of s)) label.now }
{
    for segment in label {
        if !is_segment(segment) {
            return false;
        }
    }
    true
}

fn segment_copied(alloc: Global, segment: &Label) -> Result<Label, AllocError>
    ensures { IfOk result (λ s. segment_of s ≡ segment_of segment.now) }
{
    match segment {
        Label::Number(n) => Ok(Label::Number(*n)),
        Label::Word(word) => Ok(Label::Word(String::from_str(alloc, word.as_str())?)),
    }
}

/// The same segments in storage of their own.
pub(crate) fn label_copied(alloc: Global, label: &[Label]) -> Result<Vec<Label>, AllocError>
    ensures { IfOk result (λ l. map segment_of l.items ≡ map segment_of label.now) }
{
    let mut copy = Vec::with_capacity(alloc, label.len())?;
    for segment in label {
        copy.push(segment_copied(alloc, segment)?)?;
    }
    Ok(copy)
}

impl Version {
    /// The version that a text spells (PEP 440, "Version scheme" and "Normalization"; the spellings
    /// are those of the regular expression in the appendix "Parsing version strings with regular
    /// expressions"). White space at both ends and the case of letters do not matter. A number may
    /// have leading zeros.
    ///
    /// A `-` and a number behind the bare word of a pre-release are that word's number: `1.0a-1` is
    /// `1.0a1`.
    ///
    /// A text that spells no version is `NotAVersion`. A text that would spell one but for a number
    /// above 18446744073709551615 is `NumberTooLarge`. A growth that is refused is `NoMemory`.
    pub fn read(alloc: Global, text: &str) -> Result<Version, VersionFault>
        ensures { Reads text.now result }
    {
        let Some(slices) = slices_of(trimmed(text).as_bytes()) else {
            return Err(VersionFault::NotAVersion);
        };
        Version::of_slices(alloc, slices)
    }

    // The version that the slices write.
    fn of_slices(alloc: Global, slices: Slices<'_>) -> Result<Version, VersionFault>
        requires { AreReadable slices }
        ensures { VersionOf (version_of_slices slices.entry) result }
    {
        let epoch = written_number(slices.epoch)?;
        let release = release_numbers(alloc, slices.release)?;
        let pre = pre_number(slices.pre)?;
        let post = optional_number(slices.post)?;
        let dev = optional_number(slices.dev)?;
        let label = label_segments(alloc, slices.label)?;
        Ok(Version::with_parts(epoch, release, pre, post, dev, label))
    }

    /// The version with these parts, which make one.
    pub(crate) fn with_parts(
        epoch: u64,
        release: Vec<u64>,
        pre: Option<(Phase, u64)>,
        post: Option<u64>,
        dev: Option<u64>,
        label: Vec<Label>,
    ) -> Version
        requires { IsVersion (version_of epoch release pre post dev label) }
        ensures parts { result ≡ version_of epoch release pre post dev label }
        ensures version { IsVersion result }
    {
        Version {
            epoch,
            release,
            pre,
            post,
            dev,
            label,
        }
    }

    /// The version with these parts, where they make one (PEP 440, "Public version identifiers",
    /// "Local version identifiers"): the release is not empty, and each word of the label is
    /// lower-case letters and digits with a letter among them. Else `None`, and the parts are
    /// dropped.
    pub fn of_parts(
        epoch: u64,
        release: Vec<u64>,
        pre: Option<(Phase, u64)>,
        post: Option<u64>,
        dev: Option<u64>,
        label: Vec<Label>,
    ) -> Option<Version>
        ensures exactly { IsSome result ↔ IsVersion (version_of epoch release pre post dev label) }
        ensures parts { IfSome result (λ v. v ≡ version_of epoch release pre post dev label) }
    {
        if release.is_empty() || !is_label(&label) {
            return None;
        }
        Some(Version::with_parts(epoch, release, pre, post, dev, label))
    }

    /// The epoch, which is 0 where none is written (PEP 440, "Version epochs").
    pub fn epoch(&self) -> u64
        ensures { result ≡ self.now.epoch }
    {
        self.epoch
    }

    /// The release (PEP 440, "Final releases").
    pub fn release(&self) -> &[u64]
        ensures numbers { result.now ≡ self.now.release }
        ensures version { IsVersion self.now }
    {
        self.release.as_slice()
    }

    /// The pre-release part (PEP 440, "Pre-releases").
    pub fn pre(&self) -> Option<(Phase, u64)>
        ensures { result ≡ self.now.pre }
    {
        self.pre
    }

    /// The post-release part (PEP 440, "Post-releases").
    pub fn post(&self) -> Option<u64>
        ensures { result ≡ self.now.post }
    {
        self.post
    }

    /// The developmental release part (PEP 440, "Developmental releases").
    pub fn dev(&self) -> Option<u64>
        ensures { result ≡ self.now.dev }
    {
        self.dev
    }

    /// The label, which is empty where there is none (PEP 440, "Local version identifiers").
    pub fn label(&self) -> &[Label]
        ensures { map segment_of result.now ≡ self.now.label }
    {
        self.label.as_slice()
    }

    /// Whether this is a pre-release: it has a pre-release part or a developmental release part
    /// (PEP 440, "Handling of pre-releases").
    pub fn is_pre(&self) -> bool
        ensures { result ≡ is_pre_release self.now }
    {
        self.pre.is_some() || self.dev.is_some()
    }

    /// Whether this is a final release: an epoch and a release, and nothing more (PEP 440, "Final
    /// releases").
    pub fn is_final(&self) -> bool
        ensures { result ≡ is_final self.now }
    {
        self.pre().is_none()
            && self.post().is_none()
            && self.dev().is_none()
            && self.label().is_empty()
    }

    /// The normal text (PEP 440, "Normalization"). The only fault is `NoMemory`.
    pub fn text(&self, alloc: Global) -> Result<String, VersionFault>
        ensures normal { IfOk result (λ t. string_bytes t ≡ normal_text self.now) }
        ensures faults { IfErr result (λ e. e ≡ VersionFault.NoMemory) }
    {
        let mut text = String::new(alloc);
        self.push_text(&mut text)?;
        Ok(text)
    }

    /// Appends the normal text (PEP 440, "Normalization"). The only fault is `NoMemory`; a refusal
    /// leaves what stood in the text, with perhaps a part behind it.
    pub fn push_text(&self, text: &mut String) -> Result<(), VersionFault>
        ensures ok { OnOk result (string_bytes text.new
            ≡ string_bytes text.old ++ normal_text self.now) }
        ensures faults { IfErr result (λ e. e ≡ VersionFault.NoMemory) }
        ensures kept { OnErr result (KeepsFront (string_bytes text.old) (string_bytes text.new)) }
    {
        self.put_text(text)?;
        Ok(())
    }

    /// Writes the normal text (PEP 440, "Normalization") to what takes it part by part, as `push_text` does to a
    /// `String`. A fault is one of what takes it; what had been taken before stays, with perhaps a part behind it.
    pub fn put_text<T: TextOut>(&self, text: &mut T) -> Result<(), T::Fault>
        ensures ok { OnOk result (T.tells → T.written text.new
            ≡ T.written text.old ++ normal_text self.now) }
        ensures kept { OnErr result (T.tells → Extends (T.written text.old) (T.written text.new)) }
    {
        put_epoch(text, self.epoch)?;
        put_release(text, self.release.as_slice())?;
        put_suffixes(text, self.pre, self.post, self.dev)?;
        put_label(text, self.label.as_slice())
    }

    /// An equal version in storage of its own. The only fault is `NoMemory`.
    pub fn copied(&self, alloc: Global) -> Result<Version, VersionFault>
        ensures same { IfOk result (λ v. v ≡ self.now) }
        ensures faults { IfErr result (λ e. e ≡ VersionFault.NoMemory) }
    {
        let release = Vec::from_slice(alloc, self.release.as_slice())?;
        let label = label_copied(alloc, self.label.as_slice())?;
        Ok(Version::with_parts(self.epoch, release, self.pre, self.post, self.dev, label))
    }
}
