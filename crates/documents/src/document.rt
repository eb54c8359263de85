//! TOML documents, and the arrays of texts in them.

ghost use Rattle.std.specs.Prelude.{◌≡◌, ◌⊎◌, Err, IfErr, IfOk, None, Ok, Some};
ghost use Rattle.pep_marker.specs.Name.{name_of};
ghost use Rattle.toml.specs.View.{items_view, table_view, view};
ghost use Rattle.documents.specs.Document.{document_of, texts_at, texts_of, texts_of_items};
ghost use Rattle.documents.specs.Texts.{lent_texts};

use crate::file::file_text;
use crate::nesting::is_shallow;
use faults::Cause;
use pep_marker::{MarkerFault, Name};
use std::alloc::Global;
use toml::{Table, Value};

/// The TOML document that the bytes are. Any of at most 16,777,216 bytes is read, or refused, in less than
/// 512 KiB of stack, and dropped so.
pub(crate) fn read_document(alloc: Global, bytes: &[u8]) -> Result<Table, Cause>
    ensures ok { IfOk result (λ document. document_of bytes.now ≡ Ok (table_view document)) }
    ensures refused { IfErr result (λ cause. (cause ≡ Cause.NoMemory)
        ⊎ (document_of bytes.now ≡ Err cause)) }
{
    let text = file_text(bytes)?;
    if !is_shallow(bytes) {
        return Err(Cause::NotToml);
    }
    match toml::table_from_str(alloc, text) {
        Ok(document) => Ok(document),
        Err(fault) if fault.is_memory() => Err(Cause::NoMemory),
        Err(_) => Err(Cause::NotToml),
    }
}

/// The name that a key or a text is.
pub(crate) fn name_in(alloc: Global, text: &str) -> Result<Name, Cause>
    ensures ok { IfOk result (λ name. name_of text.now ≡ Some name) }
    ensures refused { IfErr result (λ cause. (cause ≡ Cause.NoMemory)
        ⊎ ((cause ≡ Cause.WrongShape) × (name_of text.now ≡ None))) }
{
    match Name::read(alloc, text) {
        Ok(name) => Ok(name),
        Err(MarkerFault::BadName) => Err(Cause::WrongShape),
        Err(_) => Err(Cause::NoMemory),
    }
}

// The texts of values that are nothing else.
fn texts_of_values<'a>(alloc: Global, values: &'a [Value]) -> Result<Vec<&'a str>, Cause>
    ensures ok { IfOk result (λ texts.
        texts_of_items (items_view values.now) ≡ Some (lent_texts texts.items)) }
    ensures refused { IfErr result (λ cause. (cause ≡ Cause.NoMemory)
        ⊎ ((cause ≡ Cause.WrongShape) × (texts_of_items (items_view values.now) ≡ None))) }
{
    let mut texts = Vec::with_capacity(alloc, values.len())?;
    for value in values {
        let Some(text) = value.as_str() else {
            return Err(Cause::WrongShape);
        };
        texts.push(text)?;
    }
    Ok(texts)
}

/// The texts of an array that holds nothing else.
pub(crate) fn texts_of<'a>(alloc: Global, value: &'a Value) -> Result<Vec<&'a str>, Cause>
    ensures ok { IfOk result (λ texts. texts_of (view value.now) ≡ Some (lent_texts texts.items)) }
    ensures refused { IfErr result (λ cause. (cause ≡ Cause.NoMemory)
        ⊎ ((cause ≡ Cause.WrongShape) × (texts_of (view value.now) ≡ None))) }
{
    match value.as_array() {
        Some(values) => texts_of_values(alloc, values.as_slice()),
        None => Err(Cause::WrongShape),
    }
}

/// The texts of the array at a key, and none where there is no such key.
pub(crate) fn texts_at<'a>(
    alloc: Global,
    table: &'a Table,
    key: &str,
) -> Result<Vec<&'a str>, Cause>
    ensures ok { IfOk result (λ texts.
        texts_at key.now (table_view table.now) ≡ Ok (lent_texts texts.items)) }
    ensures refused { IfErr result (λ cause. (cause ≡ Cause.NoMemory)
        ⊎ (texts_at key.now (table_view table.now) ≡ Err cause)) }
{
    match table.get(key) {
        Some(value) => texts_of(alloc, value),
        None => Ok(Vec::new(alloc)),
    }
}
