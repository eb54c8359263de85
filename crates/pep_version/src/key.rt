// The place of a version in the order.

mod bytes;
mod read;
mod short;
mod text;

ghost use Rattle.std.specs.Prelude.{
  ◌≡◌,
  ◌<◌,
  ◌++◌,
  ◌↔◌,
  length,
  map,
  refl,
  string_bytes,
  IfErr,
  IfOk,
  IfSome,
  IsSome,
  OnErr,
  OnOk,
};
ghost use Rattle.std.specs.Cmp.{
  eq_by_cmp_equiv,
  partial_equiv_from_equiv,
  partial_order_from_total,
};
ghost use Rattle.std.specs.Ordering.{as_partial_cmp, eq_by_cmp};
ghost use Rattle.pep_version.specs.Feed.{key_feed, key_feed-alike};
ghost use Rattle.pep_version.specs.KeyBytes.{key_bytes};
ghost use Rattle.pep_version.specs.KeyReading.{IsKey};
ghost use Rattle.pep_version.specs.Laws.{version_total};
ghost use Rattle.pep_version.specs.Order.{
  place_of,
  release_version,
  short_release,
  version_cmp,
  with_suffixes,
  without_end_zeros,
};
ghost use Rattle.pep_version.specs.Text.{KeepsFront, normal_text};
ghost use Rattle.pep_version.specs.Version.{IsVersion};
ghost use Rattle.pep_version.specs.View.{segment_of, version_with};

use crate::fault::VersionFault;
pub use crate::key::bytes::KeyBytes;
use crate::key::bytes::{push_place, push_suffix};
pub use crate::key::read::behind_release;
pub use crate::key::short::public_key_bytes;
use crate::key::short::short_bytes;
use crate::parts::{Label, Phase};
use crate::version::Version;
use std::alloc::{AllocError, Global};
use std::cmp::Ordering;
use std::hash::{Hash, Hasher};
use std::marker::Model;

/// A version's place in the order (PEP 440, "Summary of permitted suffixes and relative ordering"):
/// one key for all versions that are the same in order, as `1.0` and `1.0.0`. The release of a key
/// has no zeros at its end, except that its first number stays.
///
/// A key is held as bytes whose byte order is the order of versions.
#[derive(Debug, Drop)]
pub struct Key {
    bytes: KeyBytes,
}

impl Model for Key {
    ghost use Rattle.pep_version.specs.KeyReading.{ReadsBack, version_at};
    ghost use Rattle.pep_version.specs.Version.{Version};

    ghost Value = { Version };

    ghost view = { λ a. version_at a.bytes.items };

    ghost invariant = { λ a. ReadsBack a.bytes.items };
}

// The release without the zeros at its end, except that its first number stays.
fn short_release(release: &[u64]) -> &[u64]
    ensures { result.now ≡ short_release release.now }
{
    let mut rest = release;
    while let [front @ .., last] = rest {
        if *last != 0 || front.is_empty() {
            break;
        }
        rest = front;
    }
    rest
}

impl Key {
    /// The place of a version. The only fault is `NoMemory`.
    pub fn of(alloc: Global, version: &Version) -> Result<Key, VersionFault>
        ensures place { IfOk result (λ k. k ≡ place_of version.now) }
        ensures version { IfOk result (λ k. IsVersion k) }
        ensures own_place { IfOk result (λ k. place_of k ≡ k) }
        ensures faults { IfErr result (λ e. e ≡ VersionFault.NoMemory) }
    {
        Key::with_suffixes(alloc, version, version.pre(), version.post(), version.dev())
    }

    /// The place of the version with these suffixes in place of its own, and with its label (PEP 440,
    /// "Summary of permitted suffixes and relative ordering"). The only fault is `NoMemory`.
    pub fn with_suffixes(
        alloc: Global,
        version: &Version,
        pre: Option<(Phase, u64)>,
        post: Option<u64>,
        dev: Option<u64>,
    ) -> Result<Key, VersionFault>
        ensures place { IfOk result (λ k. k ≡ place_of (with_suffixes version.now pre post dev)) }
        ensures version { IfOk result (λ k. IsVersion k) }
        ensures own_place { IfOk result (λ k. place_of k ≡ k) }
        ensures faults { IfErr result (λ e. e ≡ VersionFault.NoMemory) }
    {
        let release = version.release();
        Ok(Key::of_parts(
            alloc,
            version.epoch(),
            release,
            pre,
            post,
            dev,
            version.label(),
        )?)
    }

    // The place of the version with these parts, written from them.
    fn of_parts(
        alloc: Global,
        epoch: u64,
        release: &[u64],
        pre: Option<(Phase, u64)>,
        post: Option<u64>,
        dev: Option<u64>,
        label: &[Label],
    ) -> Result<Key, AllocError>
        requires { IsVersion (version_with epoch release.now pre post dev (map segment_of
            label.now)) }
        ensures place { IfOk result (λ k. k ≡ place_of (version_with epoch release.now pre post dev
            (map segment_of label.now))) }
        ensures version { IfOk result (λ k. IsVersion k) }
        ensures own_place { IfOk result (λ k. place_of k ≡ k) }
    {
        let release = without_end_zeros(release);
        if pre.is_none() && label.is_empty() {
            if let Some(bytes) = short_bytes(alloc, epoch, release, post, dev) {
                return Ok(Key { bytes });
            }
        }
        let mut bytes = KeyBytes::new(alloc);
        push_place(&mut bytes, epoch, release)?;
        push_suffix(&mut bytes, pre, post, dev, label)?;
        Ok(Key { bytes })
    }

    /// The place of a final release, which has a number at least, or of its developmental release
    /// of this number (PEP 440, "Final releases", "Developmental releases"). The only fault is
    /// `NoMemory`.
    pub fn of_release(
        alloc: Global,
        epoch: u64,
        release: &[u64],
        dev: Option<u64>,
    ) -> Result<Key, VersionFault>
        requires { 0 < length release.now }
        ensures place { IfOk result (λ k. k ≡ place_of (release_version epoch release.now dev)) }
        ensures version { IfOk result (λ k. IsVersion k) }
        ensures own_place { IfOk result (λ k. place_of k ≡ k) }
        ensures faults { IfErr result (λ e. e ≡ VersionFault.NoMemory) }
    {
        Ok(Key::of_parts(alloc, epoch, release, None, None, dev, &[])?)
    }

    /// The key with these bytes, as `bytes` gives them, or `None` where no version's key has these. The
    /// only fault is `NoMemory`.
    pub fn read(alloc: Global, bytes: &[u8]) -> Result<Option<Key>, VersionFault>
        ensures exactly { IfOk result (λ found. IsSome found ↔ IsKey bytes.now) }
        ensures bytes { IfOk result (λ found. IfSome found (λ k. key_bytes k ≡ bytes.now)) }
        ensures version { IfOk result (λ found. IfSome found (λ k. IsVersion k)) }
        ensures own_place { IfOk result (λ found. IfSome found (λ k. place_of k ≡ k)) }
        ensures faults { IfErr result (λ e. e ≡ VersionFault.NoMemory) }
    {
        let Some((version, _)) = Version::at_front(alloc, bytes)? else {
            return Ok(None);
        };
        let key = Key::of(alloc, &version)?;
        if key.bytes() == bytes {
            Ok(Some(key))
        } else {
            Ok(None)
        }
    }

    /// The version that stands at this place: of those that are the same in order, the one whose
    /// release has no zeros at its end, but for its first number. The only fault is `NoMemory`.
    pub fn version(&self, alloc: Global) -> Result<Version, VersionFault>
        ensures version { IfOk result (λ v. v ≡ self.now) }
        ensures is_version { IsVersion self.now }
        ensures own_place { place_of self.now ≡ self.now }
        ensures faults { IfErr result (λ e. e ≡ VersionFault.NoMemory) }
    {
        match Version::at_front(alloc, self.bytes())? {
            Some((version, _)) => Ok(version),
            None => unreachable!(),
        }
    }

    /// Appends the normal text of the version that stands at this place (PEP 440, "Normalization").
    /// The only fault is `NoMemory`; a refusal leaves what stood in the text, with perhaps a part
    /// behind it.
    pub fn push_text(&self, text: &mut String) -> Result<(), VersionFault>
        ensures ok { OnOk result (string_bytes text.new
            ≡ string_bytes text.old ++ normal_text self.now) }
        ensures faults { IfErr result (λ e. e ≡ VersionFault.NoMemory) }
        ensures kept { OnErr result (KeepsFront (string_bytes text.old) (string_bytes text.new)) }
    {
        let version = self.version(*text.allocator())?;
        version.push_text(text)
    }

    /// An equal key in storage of its own. The only fault is `NoMemory`.
    pub fn copied(&self, alloc: Global) -> Result<Key, VersionFault>
        ensures same { IfOk result (λ k. k ≡ self.now) }
        ensures is_version { IsVersion self.now }
        ensures own_place { place_of self.now ≡ self.now }
        ensures faults { IfErr result (λ e. e ≡ VersionFault.NoMemory) }
    {
        let bytes = KeyBytes::from_slice(alloc, self.bytes())?;
        Ok(Key { bytes })
    }

    /// The bytes of the key: the epoch, the release, the phase of a pre-release, the post-release,
    /// the developmental release and the label, one part behind the other. Of two keys the one whose
    /// bytes are below the other's in byte order is below it, and equal keys have the same bytes.
    pub fn bytes(&self) -> &[u8]
        ensures bytes { result.now ≡ key_bytes self.now }
        ensures version { IsVersion self.now }
        ensures own_place { place_of self.now ≡ self.now }
    {
        self.bytes.as_slice()
    }

    /// The bytes of the key (see `bytes`) in their own storage.
    pub fn into_bytes(self) -> KeyBytes
        ensures bytes { result.items ≡ key_bytes self }
        ensures version { IsVersion self }
        ensures own_place { place_of self ≡ self }
    {
        let Key { bytes } = self;
        bytes
    }
}

impl PartialEq for Key {
    ghost eq = { eq_by_cmp version_cmp };

    ghost laws = { partial_equiv_from_equiv (eq_by_cmp_equiv version_total) };

    fn eq(&self, other: &Key) -> bool {
        self.cmp(other) == Ordering::Equal
    }
}

impl Eq for Key {
    ghost laws = { eq_by_cmp_equiv version_total };
}

impl PartialOrd for Key {
    ghost partial_cmp = { as_partial_cmp version_cmp };

    ghost laws = { partial_order_from_total version_total };

    fn partial_cmp(&self, other: &Key) -> Option<Ordering> {
        Some(self.cmp(other))
    }
}

impl Ord for Key {
    ghost cmp = { version_cmp };

    ghost total = { version_total };

    ghost matches_partial_cmp = { λ a b. refl };

    ghost matches_eq = { λ a b. refl };

    fn cmp(&self, other: &Key) -> Ordering {
        self.bytes().cmp(other.bytes())
    }
}

// The release without any zero at its end.
fn without_end_zeros(release: &[u64]) -> &[u64]
    ensures { result.now ≡ without_end_zeros release.now }
{
    let short = short_release(release);
    if short.len() == 1 && short[0] == 0 {
        return &short[..0];
    }
    short
}

impl Hash for Key {
    ghost hash_input = { key_feed };

    ghost respects_eq = { key_feed-alike.fed };

    #[tactic(auto, unfolding(crate::specs::Feed::key_feed))]
    fn hash<H: Hasher>(&self, state: &mut H) {
        state.write(self.bytes());
    }
}
