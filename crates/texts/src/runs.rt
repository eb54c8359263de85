//! Runs of bytes of one class: of names, of clauses, and of white space in lines, requirements and
//! markers.

ghost use Rattle.std.specs.Prelude.{◌≡◌, ◌≤◌, length};
ghost use Rattle.std.specs.List.{list_all, prefix_len, suffix_len};
ghost use Rattle.texts.specs.Bytes.{is_blank_byte, is_clause_byte, is_name_byte};
ghost use Rattle.texts.specs.Runs.{without_leading_blanks, without_outer_blanks};

use crate::bytes::{is_blank_byte, is_clause_byte, is_name_byte};

/// How many bytes that a name may hold stand in front.
pub fn name_run(text: &[u8]) -> usize
    ensures count { result ≡ prefix_len is_name_byte text.now }
    ensures within { result ≤ length text.now }
{
    text.iter().take_while(|b| is_name_byte(**b)).count()
}

/// How many bytes that a clause may have behind its operator stand in front.
pub fn clause_run(text: &[u8]) -> usize
    ensures count { result ≡ prefix_len is_clause_byte text.now }
    ensures within { result ≤ length text.now }
{
    text.iter().take_while(|b| is_clause_byte(**b)).count()
}

/// Whether the text has such bytes alone.
pub fn has_clause_bytes(text: &[u8]) -> bool
    ensures { result ≡ list_all is_clause_byte text.now }
{
    text.iter().all(|b| is_clause_byte(*b))
}

/// How many bytes of white space stand in front.
pub fn blank_run(text: &[u8]) -> usize
    ensures count { result ≡ prefix_len is_blank_byte text.now }
    ensures within { result ≤ length text.now }
{
    text.iter().take_while(|b| is_blank_byte(**b)).count()
}

// How many bytes of white space stand at the end.
fn blank_end(text: &[u8]) -> usize
    ensures count { result ≡ suffix_len is_blank_byte text.now }
    ensures within { result ≤ length text.now }
{
    text.iter().rev().take_while(|b| is_blank_byte(**b)).count()
}

/// The text without the white space in front.
pub fn stripped(text: &str) -> &str
    ensures { result.now ≡ without_leading_blanks text.now }
{
    let (_, rest) = text.split_at(blank_run(text.as_bytes()));
    rest
}

/// The text without the white space at both ends.
pub fn without_outer_blanks(text: &str) -> &str
    ensures { result.now ≡ without_outer_blanks text.now }
{
    let rest = stripped(text);
    let (front, _) = rest.split_at(rest.len() - blank_end(rest.as_bytes()));
    front
}
