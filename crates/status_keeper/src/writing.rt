//! Writing the text of a status file.

ghost use Rattle.std.specs.Prelude.{◌≡◌, length, string_bytes, Some, Ok, IfOk};
ghost use Rattle.std.specs.List.{AllByRecursion};
ghost use Rattle.hex.specs.Hex.{encode_lower};
ghost use Rattle.serde_json.specs.Data.{string};
ghost use Rattle.serde_json.specs.View.{view, members_view};
ghost use Rattle.status_keeper.specs.Idents.{IsRising};
ghost use Rattle.status_keeper.specs.Reading.{FpReads};
ghost use Rattle.status_keeper.specs.Rows.{row_idents};
ghost use Rattle.status_keeper.specs.Status.{null_or, row_data, rows_data, status_data, text_of, fp_of, kept_text};

use crate::row::Row;
use item_text::Fp;
use outside::NoMemory;
use serde_json::{Map, Value, json};
use std::alloc::Global;
use values::Text;

fn text_value(alloc: Global, text: &str) -> Result<Value, NoMemory>
    ensures { IfOk result (λ v. view v ≡ string text.now) }
{
    Ok(Value::String(String::from_str(alloc, text)?))
}

fn text_or_null(alloc: Global, text: &Option<Text>) -> Result<Value, NoMemory>
    ensures { IfOk result (λ v. view v ≡ null_or text.now) }
{
    match text {
        None => Ok(Value::Null),
        Some(text) => text_value(alloc, text.as_str()),
    }
}

/// The hex digits of a version's bytes. They mean the version.
fn digits_of(alloc: Global, bytes: &[u8]) -> Result<String, NoMemory>
    requires { length bytes.now ≡ 32 }
    ensures digits { IfOk result (λ text. string_bytes text ≡ encode_lower bytes.now) }
    ensures reads { fp_of (encode_lower bytes.now) ≡ Some (record { 0 = bytes.now }) }
{
    match hex::encode(alloc, bytes) {
        Ok(text) => Ok(text),
        Err(_) => Err(NoMemory),
    }
}

fn fp_value(alloc: Global, fp: Fp) -> Result<Value, NoMemory>
    ensures value { IfOk result (λ v. view v ≡ string (encode_lower fp.0)) }
    ensures reads { fp_of (encode_lower fp.0) ≡ Some fp }
{
    let bytes = fp.0;
    Ok(Value::String(digits_of(alloc, bytes.as_slice())?))
}

fn row_value(alloc: Global, row: &Row) -> Result<Value, NoMemory>
    ensures value { IfOk result (λ v. view v ≡ row_data row.now) }
    ensures reads { IfOk result (λ v. FpReads row.now) }
{
    let fp = fp_value(alloc, row.fp)?;
    let href_a = text_or_null(alloc, &row.href_a)?;
    let etag_a = text_or_null(alloc, &row.etag_a)?;
    let href_b = text_or_null(alloc, &row.href_b)?;
    let etag_b = text_or_null(alloc, &row.etag_b)?;
    Ok(Value::Array(vec![in alloc; fp, href_a, etag_a, href_b, etag_b]?))
}

/// The rows as members of an object.
fn rows_value(alloc: Global, rows: &[Row]) -> Result<Map<String, Value>, NoMemory>
    requires { IsRising (row_idents rows.now) }
    ensures value { IfOk result (λ m. members_view m.entries ≡ rows_data rows.now) }
    ensures reads { IfOk result (λ m. AllByRecursion FpReads rows.now) }
{
    let mut members = Map::new(alloc);
    for row in rows {
        let value = row_value(alloc, row)?;
        serde_json::put(&mut members, alloc, row.ident.as_str(), value)?;
    }
    Ok(members)
}

fn status_value(alloc: Global, rows: &[Row]) -> Result<Value, NoMemory>
    requires { IsRising (row_idents rows.now) }
    ensures value { IfOk result (λ v. view v ≡ status_data rows.now) }
    ensures reads { IfOk result (λ v. AllByRecursion FpReads rows.now) }
{
    let rows = Value::Object(rows_value(alloc, rows)?);
    Ok(json!(in alloc; {"rows": rows, "version": 1u64})?)
}

/// The text of a status, which means its rows.
pub(crate) fn write_status(alloc: Global, rows: &[Row]) -> Result<Vec<u8>, NoMemory>
    requires { IsRising (row_idents rows.now) }
    ensures text { IfOk result (λ text. text.items ≡ text_of rows.now) }
    ensures means { IfOk result (λ text. kept_text text.items ≡ Ok rows.now) }
{
    let status = status_value(alloc, rows)?;
    Ok(status.to_vec(alloc)?)
}
