//! Laws of the definitions.

ghost use Rattle.std.specs.Prelude.{◌≡◌, ◌<◌, ◌↔◌, ◌++◌, ℕ, IsTrue, List, length};
ghost use Rattle.std.specs.Cmp.{IsTotalOrder};
ghost use Rattle.std.specs.List.{list_all};
ghost use Rattle.pep_version.specs.KeyBytes.{KeysKeepOrder, PartsKeepOrder, key_bytes, place_bytes};
ghost use Rattle.pep_version.specs.KeyReading.{IsKey, ReadsBack, behind_place, read_version, version_at};
ghost use Rattle.pep_version.specs.Order.{Same, place_of, version_cmp};
ghost use Rattle.pep_version.specs.Spelling.{Spells, SpellsAny};
ghost use Rattle.pep_version.specs.Text.{is_text_byte, normal_text};
ghost use Rattle.pep_version.specs.Version.{IsVersion, Version};

/// Versions are in a total order (PEP 440, "Summary of permitted suffixes and relative ordering").
#[tactic(auto, using(crate::specs::Laws::version_total))]
pub fn order_is_total()
    ensures { IsTotalOrder version_cmp }
{}

/// Places compare as their versions do. So two keys are equal exactly if their versions are the
/// same in order, and one is less exactly if its version is below the other's (PEP 440, "Summary of
/// permitted suffixes and relative ordering").
pub fn order_of_places()
    ensures { (v w : Version) → version_cmp (place_of v) (place_of w) ≡ version_cmp v w }
{}

/// Two versions are the same in order exactly if they have one place (PEP 440, "Summary of
/// permitted suffixes and relative ordering").
pub fn one_place()
    ensures { (v w : Version) → 0 < length v.release → 0 < length w.release → Same v w
        ↔ (place_of v ≡ place_of w) }
{}

/// A text spells at most one version (PEP 440, "Normalization").
pub fn one_version()
    ensures { (text : List ℕ) (v w : Version) → SpellsAny text v → SpellsAny text w → v ≡ w }
{}

/// The normal text of a version is a spelling of it, so a version is read back from its normal
/// text (PEP 440, "Normalization").
pub fn text_is_read()
    ensures { (v : Version) → IsVersion v → Spells (normal_text v) v }
{}

/// The normal text of a version has letters in lower case, digits, `.`, `+` and `!` alone (PEP
/// 440, "Normalization").
pub fn text_bytes()
    ensures { (v : Version) → IsVersion v → IsTrue (list_all is_text_byte (normal_text v)) }
{}

/// Byte order of each part of a key is its step of the order of versions, and in no part do one
/// value's bytes begin another's (PEP 440, "Summary of permitted suffixes and relative ordering").
pub fn parts_keep_order()
    ensures { PartsKeepOrder }
{}

/// Byte order of keys is the order of versions, no key begins another, and two versions have one
/// key exactly if they have one place (PEP 440, "Summary of permitted suffixes and relative
/// ordering").
pub fn keys_keep_order()
    ensures { KeysKeepOrder }
{}

/// The place of a version is read back from the front of bytes that begin with its key, and what
/// stands behind the key, or behind its epoch and release, is what is left of them; bytes are a key
/// exactly if the version read from them has them for its key.
pub fn key_is_read()
    ensures place { (v : Version) → IsVersion v → version_at (key_bytes v) ≡ place_of v }
    ensures front { (v : Version) (rest : List ℕ) → IsVersion v
        → read_version (key_bytes v ++ rest) ≡ (place_of v, rest) }
    ensures behind_release { (v : Version) (rest : List ℕ) → IsVersion v
        → behind_place (place_bytes v ++ rest) ≡ rest }
    ensures is_key { (bytes : List ℕ) → IsKey bytes ↔ ReadsBack bytes }
{}
