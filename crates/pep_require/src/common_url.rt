// URLs of the common form, which the crate `url` prints as they are written: `https://`, `http://` or `git+https://`, a
// host in lower case whose last label begins with a letter, and a path, a query and a fragment in which nothing has to
// be escaped.

ghost use Rattle.std.specs.Prelude.{◌≡◌, ◌≤◌, IfNone, IfSome, List, false, length, true, ℕ};
ghost use Rattle.std.specs.List.{prefix_len};
ghost use Rattle.pep_require.specs.CommonUrl.{
  IsBehindScheme,
  IsCommonUrl,
  behind_host,
  behind_path,
  behind_spot,
  ends_at,
  goes_on,
  is_label_byte,
  is_lower_letter,
  is_path_byte,
  is_tail_byte,
};

// Where in such a URL a byte stands.
#[derive(Clone, Copy, PartialEq, Eq)]
pub(crate) enum Spot {
    // A label of the host begins.
    Label,
    // In a label that begins with a letter.
    Word,
    // In another label.
    Other,
    // A segment of the path begins.
    Segment,
    // In a segment.
    Path,
    Query,
    Fragment,
}

// Whether the byte is a letter in lower case.
fn is_lower_letter(byte: u8) -> bool
    ensures { result ≡ is_lower_letter byte }
{
    matches!(byte, b'a'..=b'z')
}

// Whether a label of a host may hold the byte.
fn is_label_byte(byte: u8) -> bool
    ensures { result ≡ is_label_byte byte }
{
    matches!(byte, b'a'..=b'z' | b'0'..=b'9' | b'-')
}

// Whether a segment of a path may hold the byte: none that has to be escaped there, in a query or in a fragment.
#[inline(always)]
fn is_path_byte(byte: u8) -> bool
    ensures { result ≡ is_path_byte byte }
{
    // Most bytes of a path are these.
    if is_lower_letter(byte) {
        return true;
    }
    matches!(
        byte,
        b'0'..=b';' | b'@'..=b'[' | b'('..=b'.' | b'$'..=b'&' | b'!' | b'=' | b']' | b'_' | b'~'
    )
}

// Whether a query or a fragment may hold the byte.
fn is_tail_byte(byte: u8) -> bool
    ensures { result ≡ is_tail_byte byte }
{
    is_path_byte(byte) || byte == b'/' || byte == b'?'
}

// Where the byte behind this one stands, which is in a label.
fn behind_host(spot: Spot, byte: u8) -> Option<Spot>
    ensures { result ≡ behind_host spot byte }
{
    if is_label_byte(byte) {
        Some(spot)
    } else if byte == b'.' {
        Some(Spot::Label)
    } else if byte == b'/' && spot == Spot::Word {
        Some(Spot::Segment)
    } else {
        None
    }
}

// Where the byte behind this one stands, which is in the path.
fn behind_path(byte: u8) -> Option<Spot>
    ensures { result ≡ behind_path byte }
{
    if is_path_byte(byte) {
        Some(Spot::Path)
    } else if byte == b'/' {
        Some(Spot::Segment)
    } else if byte == b'?' {
        Some(Spot::Query)
    } else if byte == b'#' {
        Some(Spot::Fragment)
    } else {
        None
    }
}

impl Spot {
    // Where the byte behind this one stands, if the URL may go on with this one.
    fn behind(self, byte: u8) -> Option<Spot>
        ensures { result ≡ behind_spot self byte }
    {
        match self {
            Spot::Label if is_lower_letter(byte) => Some(Spot::Word),
            Spot::Label if is_label_byte(byte) => Some(Spot::Other),
            Spot::Word | Spot::Other => behind_host(self, byte),
            Spot::Segment if byte == b'.' || byte == b'%' => None,
            Spot::Segment | Spot::Path => behind_path(byte),
            Spot::Query if byte == b'#' => Some(Spot::Fragment),
            Spot::Query | Spot::Fragment if is_tail_byte(byte) => Some(self),
            _ => None,
        }
    }

    // Whether the URL may end here.
    fn ends(self) -> bool
        ensures { result ≡ ends_at self }
    {
        !matches!(self, Spot::Label | Spot::Word | Spot::Other)
    }
}

// How many bytes of a label stand in front.
fn label_run(bytes: &[u8]) -> usize
    ensures count { result ≡ prefix_len is_label_byte bytes.now }
    ensures within { result ≤ length bytes.now }
{
    bytes.iter().take_while(|b| is_label_byte(**b)).count()
}

// How many bytes of a segment of a path stand in front.
fn path_run(bytes: &[u8]) -> usize
    ensures count { result ≡ prefix_len is_path_byte bytes.now }
    ensures within { result ≤ length bytes.now }
{
    bytes.iter().take_while(|b| is_path_byte(**b)).count()
}

// How many bytes of a query or of a fragment stand in front.
fn tail_run(bytes: &[u8]) -> usize
    ensures count { result ≡ prefix_len is_tail_byte bytes.now }
    ensures within { result ≤ length bytes.now }
{
    bytes.iter().take_while(|b| is_tail_byte(**b)).count()
}

// What is left of the bytes here, without those in front behind which the next one stands at such a spot too. (Most
// bytes are such.)
fn behind_run(spot: Spot, bytes: &[u8]) -> &[u8]
    ensures rest { goes_on spot result.now ≡ goes_on spot bytes.now }
    ensures within { length result.now ≤ length bytes.now }
{
    let run = match spot {
        Spot::Word | Spot::Other => label_run(bytes),
        Spot::Path => path_run(bytes),
        Spot::Query | Spot::Fragment => tail_run(bytes),
        Spot::Label | Spot::Segment => 0,
    };
    let (_, rest) = bytes.split_at(run);
    rest
}

// Whether the bytes are a host, a path, and perhaps a query and a fragment.
fn goes_on(bytes: &[u8]) -> bool
    ensures { result ≡ goes_on Spot.Label bytes.now }
{
    let mut spot = Spot::Label;
    let mut rest = bytes;
    while let Some((first, following)) = rest.split_first() {
        let Some(next) = spot.behind(*first) else {
            return false;
        };
        spot = next;
        rest = behind_run(next, following);
    }
    spot.ends()
}

// What stands behind `https://`, `http://` or `git+https://`.
fn behind_scheme(bytes: &[u8]) -> Option<&[u8]>
    ensures some { IfSome result (λ rest. IsBehindScheme bytes.now rest.now) }
    ensures none { IfNone result ((rest : List ℕ) → ¬ IsBehindScheme bytes.now rest) }
{
    if bytes.starts_with(b"https://") {
        Some(&bytes[8..])
    } else if bytes.starts_with(b"http://") {
        Some(&bytes[7..])
    } else if bytes.starts_with(b"git+https://") {
        Some(&bytes[12..])
    } else {
        None
    }
}

// Whether the text is a URL of the common form.
pub(crate) fn is_common(text: &str) -> bool
    ensures yes { result ≡ true → IsCommonUrl text.now }
    ensures no { result ≡ false → ¬ IsCommonUrl text.now }
{
    match behind_scheme(text.as_bytes()) {
        Some(rest) => goes_on(rest),
        None => false,
    }
}
