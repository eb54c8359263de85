ghost use Rattle.std.specs.Prelude.{◌≡◌, ◌⊎◌, ◌↔◌, ◌<◌, length, nat_lt, IfOk, IfErr, IsTrue};
ghost use Rattle.std.specs.List.{list_all};
ghost use Rattle.pep_require.specs.CommonUrl.{IsCommonUrl};
ghost use Rattle.pep_require.specs.LineParts.{RefusesWritten};
ghost use Rattle.pep_require.specs.Reads.{ReadsUrl, is_url_byte};
ghost use Rattle.pep_require.specs.Requirement.{UrlParts};

use crate::common_url::is_common;
use crate::fault::RequireFault;
use std::alloc::{AllocError, Global};
use std::marker::Model;
use url::{ParseError, Url};

/// The URL of a requirement (PEP 508): the text that is written, and the text by which the URL
/// Standard prints the URL.
#[derive(Drop)]
pub struct UrlText {
    written: String,
    // If it is another.
    text: Option<String>,
}

impl Model for UrlText {
    ghost use Rattle.std.specs.Prelude.{◌<◌, IsTrue, length, string_bytes};
    ghost use Rattle.std.specs.List.{list_all};
    ghost use Rattle.pep_require.specs.Reads.{is_url_byte};
    ghost use Rattle.pep_require.specs.Requirement.{UrlParts};
    ghost use Rattle.pep_require.specs.CommonUrl.{kept_text};

    ghost Value = { UrlParts };

    ghost view = { λ u. record {
      written = string_bytes u.written;
      text = kept_text u.text u.written;
    } };

    ghost invariant = { λ u. (0 < length (kept_text u.text u.written))
        × IsTrue (list_all is_url_byte (kept_text u.text u.written)) };
}

fn is_run(text: &str) -> bool
    ensures { result ≡ list_all (λ b. nat_lt 32 b) text.now }
{
    text.as_bytes().iter().all(|b| *b > 32)
}

impl UrlText {
    /// Reads a URL, as the crate `url` does by the URL Standard: a text without white space and without
    /// characters U+0000 to U+001F, which the crate prints with the characters U+0021 to U+007E
    /// alone.
    ///
    /// Any other text is `BadUrl`, 34. Where the reader of URLs answers its own overflow for a text
    /// that has no byte below U+0021, it is `UrlOverflow`, 39. Memory may run out, 40. A URL of the
    /// common form (see [`common_url_is_its_text`](crate::laws::common_url_is_its_text)) is refused only as 40.
    pub fn read(alloc: Global, written: &str) -> Result<UrlText, RequireFault>
        ensures ok { IfOk result (λ u. ReadsUrl written.now u) }
        ensures common { IsCommonUrl written.now → IfErr result (λ e. e ≡ RequireFault.NoMemory) }
        ensures refused { IfErr result (λ e. (e ≡ RequireFault.NoMemory)
            ⊎ RefusesWritten written.now e) }
    {
        if is_common(written) {
            return Ok(UrlText::common(alloc, written)?);
        }
        if !is_run(written) {
            return Err(RequireFault::BadUrl);
        }
        let url = match Url::parse(alloc, written) {
            Ok(url) => url,
            Err(ParseError::Overflow) => return Err(RequireFault::UrlOverflow),
            Err(ParseError::OutOfMemory) => return Err(RequireFault::NoMemory),
            Err(_) => return Err(RequireFault::BadUrl),
        };
        let text = url.as_str();
        if !UrlText::is_printable(text) {
            return Err(RequireFault::BadUrl);
        }
        Ok(UrlText {
            written: String::from_str(alloc, written)?,
            text: Some(String::from_str(alloc, text)?),
        })
    }

    /// Whether the text is a URL of the common form (see
    /// [`common_url_is_its_text`](crate::laws::common_url_is_its_text)). Then [`UrlText::read`] refuses it only as 40,
    /// and it is printed as it is written, so it needn't be read to be compared. Another text may be a URL that is
    /// printed so, too.
    pub fn has_common_form(written: &str) -> bool
        ensures common { IsTrue result ↔ IsCommonUrl written.now }
        ensures reads { IsTrue result → ReadsUrl written.now (record {
          written = written.now;
          text = written.now;
        }) }
        ensures some { IsTrue result → 0 < length written.now }
        ensures bytes { IsTrue result → IsTrue (list_all is_url_byte written.now) }
    {
        is_common(written)
    }

    /// Whether the text has no other characters than U+0021 to U+007E. What [`UrlText::text`] gives has these alone:
    /// [`UrlText::read`] refuses a URL whose serialization (URL Standard, "URL serializing") has another.
    pub fn is_printable(text: &str) -> bool
        ensures { result ≡ list_all is_url_byte text.now }
    {
        text.as_bytes().iter().all(|b| 33 <= *b && *b <= 126)
    }

    // A URL of the common form, which is printed as it is written.
    fn common(alloc: Global, written: &str) -> Result<UrlText, AllocError>
        requires { IsCommonUrl written.now }
        ensures { IfOk result (λ u. ReadsUrl written.now u) }
    {
        Ok(UrlText {
            written: String::from_str(alloc, written)?,
            text: None,
        })
    }

    /// The text that was read.
    pub fn written(&self) -> &str
        ensures { result.now ≡ self.now.written }
    {
        self.written.as_str()
    }

    /// The text by which the crate `url` prints the URL: two URLs are one where it is the same.
    pub fn text(&self) -> &str
        ensures text { result.now ≡ self.now.text }
        ensures some { 0 < length self.now.text }
        ensures bytes { IsTrue (list_all is_url_byte self.now.text) }
    {
        match &self.text {
            Some(text) => text.as_str(),
            None => self.written(),
        }
    }
}
