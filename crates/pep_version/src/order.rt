// The order of versions, told from their parts (PEP 440, "Summary of permitted suffixes and relative
// ordering"). Nothing is allocated, and a list is gone through to the first difference.

ghost use Rattle.std.specs.Prelude.{◌≡◌, map};
ghost use Rattle.std.specs.Cmp.Lexicographic.{slice_cmp};
ghost use Rattle.pep_version.specs.Order.{
  dev_cmp,
  phase_rank,
  pre_number_of,
  public_version,
  release_cmp,
  segment_cmp,
  stage_of,
  version_cmp,
  with_suffixes,
};
ghost use Rattle.pep_version.specs.View.{segment_of, version_with};

use crate::parts::{Label, Phase};
use crate::version::Version;
use std::cmp::Ordering;

// Releases are compared number by number, the shorter one padded with zeros ("Final releases").
fn release_order(release: &[u64], other: &[u64]) -> Ordering
    ensures { result ≡ release_cmp release.now other.now }
{
    let numbers = release.len().max(other.len());
    'numbers: for i in 0..numbers {
        let number = release.get(i).copied().unwrap_or(0);
        let order = number.cmp(&other.get(i).copied().unwrap_or(0));
        if order != Ordering::Equal {
            return order;
        }
    }
    Ordering::Equal
}

fn phase_rank(phase: Phase) -> u8
    ensures { result ≡ phase_rank phase }
{
    match phase {
        Phase::Alpha => 1,
        Phase::Beta => 2,
        Phase::Rc => 3,
    }
}

// Where a version with these parts stands within its release.
fn stage_of(pre: Option<(Phase, u64)>, post: Option<u64>, dev: Option<u64>) -> u8
    ensures { result ≡ stage_of pre post dev }
{
    match (pre, post, dev) {
        (Some((phase, _)), _, _) => phase_rank(phase),
        (None, None, Some(_)) => 0,
        _ => 4,
    }
}

fn pre_number_of(pre: Option<(Phase, u64)>) -> u64
    ensures { result ≡ pre_number_of pre }
{
    match pre {
        Some((_, number)) => number,
        None => 0,
    }
}

// A version without a developmental release part comes after those with one ("Developmental
// releases").
fn dev_order(dev: Option<u64>, other: Option<u64>) -> Ordering
    ensures { result ≡ dev_cmp dev other }
{
    match (dev, other) {
        (None, None) => Ordering::Equal,
        (None, Some(_)) => Ordering::Greater,
        (Some(_), None) => Ordering::Less,
        (Some(dev), Some(other)) => dev.cmp(&other),
    }
}

// Numbers as numbers, words by their bytes, and a word below a number ("Local version identifiers").
fn segment_order(segment: &Label, other: &Label) -> Ordering
    ensures { result ≡ segment_cmp (segment_of segment.now) (segment_of other.now) }
{
    match (segment, other) {
        (Label::Word(word), Label::Word(other)) => word.as_str().cmp(other.as_str()),
        (Label::Word(_), Label::Number(_)) => Ordering::Less,
        (Label::Number(_), Label::Word(_)) => Ordering::Greater,
        (Label::Number(number), Label::Number(other)) => number.cmp(other),
    }
}

// The first segments that differ decide, and of two labels the shorter is below where it begins the
// longer.
fn label_order(label: &[Label], other: &[Label]) -> Ordering
    ensures { result ≡ slice_cmp segment_cmp (map segment_of label.now) (map segment_of other.now) }
{
    let (mut left, mut right) = (label, other);
    'segments: loop {
        let [segment, left_rest @ ..] = left else {
            return if right.is_empty() {
                Ordering::Equal
            } else {
                Ordering::Less
            };
        };
        let [against, right_rest @ ..] = right else {
            return Ordering::Greater;
        };
        let order = segment_order(segment, against);
        if order != Ordering::Equal {
            return order;
        }
        left = left_rest;
        right = right_rest;
    }
}

impl Version {
    /// How the version stands to the other in the order of versions (PEP 440, "Summary of permitted
    /// suffixes and relative ordering"), as their keys would. Versions that are the same in order may
    /// differ, as `1.0` and `1.0.0`: so this is no `Ord`.
    pub fn order_to(&self, other: &Version) -> Ordering
        ensures { result ≡ version_cmp self.now other.now }
    {
        self.order_of_parts(self.pre(), self.post(), self.dev(), self.label(), other)
    }

    /// How the version with these suffixes in place of its own, and without its local version label,
    /// stands to the other in the order of versions (PEP 440, "Summary of permitted suffixes and
    /// relative ordering"). Public for the crate of clauses.
    pub fn order_with(
        &self,
        pre: Option<(Phase, u64)>,
        post: Option<u64>,
        dev: Option<u64>,
        other: &Version,
    ) -> Ordering
        ensures { result ≡ version_cmp (public_version (with_suffixes self.now pre post dev))
            other.now }
    {
        self.order_of_parts(pre, post, dev, &[], other)
    }

    // How the version of this epoch and release, with these other parts, stands to the other.
    fn order_of_parts(
        &self,
        pre: Option<(Phase, u64)>,
        post: Option<u64>,
        dev: Option<u64>,
        label: &[Label],
        other: &Version,
    ) -> Ordering
        ensures { result ≡ version_cmp (version_with self.now.epoch self.now.release pre post dev
            (map segment_of label.now)) other.now }
    {
        let stage = stage_of(pre, post, dev);
        let other_stage = stage_of(other.pre(), other.post(), other.dev());
        let place = self
            .epoch()
            .cmp(&other.epoch())
            .then(release_order(self.release(), other.release()));
        let stage = stage
            .cmp(&other_stage)
            .then(pre_number_of(pre).cmp(&pre_number_of(other.pre())));
        let suffixes = dev_order(dev, other.dev()).then(label_order(label, other.label()));
        place.then(stage.then(post.cmp(&other.post()).then(suffixes)))
    }
}
