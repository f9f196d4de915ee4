//! The rows of a status by the place of their item on a side.

ghost use Rattle.std.specs.Prelude.{◌≡◌, ◌++◌, ◌∷◌, [], ℕ, List, map, if◌then◌else◌, IfOk, OnOk, string_bytes};
ghost use Rattle.std.specs.List.{find};
ghost use Rattle.std.specs.Str.{bytes_eq};
ghost use Rattle.side_reads.specs.Places.{href_on, etag_on, row_at, lent_text, lent_row, rows_at, has_href, is_text};

use status_keeper::Row;
use std::alloc::{AllocError, Global};
use std::collections::BTreeMap;
use std::marker::Model;
use sync_plan::Side;

/// The rows of a status, by the place of their item on a side.
#[derive(Drop)]
pub struct Places<'r> {
    side: Side,
    rows: &'r [Row],
    by_href: BTreeMap<String, Vec<&'r Row>>,
}

impl<'r> Model for Places<'r> {
    ghost use Rattle.side_reads.specs.Places.{IsByHref, PlacesValue};

    ghost Value = { PlacesValue };

    ghost view = { λ p. record { side = p.side; rows = p.rows.now } };

    ghost invariant = { λ p. IsByHref p.side p.rows.now p.by_href };
}

fn href_on(side: Side, row: &Row) -> Option<&str>
    ensures { lent_text result ≡ href_on side row.now }
{
    let href = match side {
        Side::A => &row.href_a,
        Side::B => &row.href_b,
    };
    match href {
        Some(text) => Some(text.as_str()),
        None => None,
    }
}

fn etag_on(side: Side, row: &Row) -> Option<&str>
    ensures { lent_text result ≡ etag_on side row.now }
{
    let etag = match side {
        Side::A => &row.etag_a,
        Side::B => &row.etag_b,
    };
    match etag {
        Some(text) => Some(text.as_str()),
        None => None,
    }
}

/// Whether the row has this etag for the side.
fn has_etag(side: Side, row: &Row, etag: &str) -> bool
    ensures { result ≡ is_text (etag_on side row.now) etag.now }
{
    match etag_on(side, row) {
        Some(own) => own == etag,
        None => false,
    }
}

/// The first of these rows that has the etag for the side.
fn first_with<'r>(side: Side, rows: &[&'r Row], etag: &str) -> Option<&'r Row>
    ensures { lent_row result ≡ find (λ r. is_text (etag_on side r) etag.now) (map (λ r. r.now) rows.now) }
{
    for row in rows {
        if has_etag(side, *row, etag) {
            return Some(*row);
        }
    }
    None
}

/// Adds a row behind those of its href.
fn add<'r>(
    by_href: &mut BTreeMap<String, Vec<&'r Row>>,
    href: String,
    row: &'r Row,
) -> Result<(), AllocError>
    ensures { OnOk result ((q : List ℕ) → rows_at by_href.new q ≡ (if bytes_eq q (string_bytes href) then rows_at by_href.old q ++ row.now ∷ [] else rows_at by_href.old q)) }
{
    by_href.entry(href)?.or_default().push(row)?;
    Ok(())
}

impl<'r> Places<'r> {
    /// The places of these rows on a side.
    pub fn of(alloc: Global, side: Side, rows: &'r [Row]) -> Result<Places<'r>, AllocError>
        ensures { IfOk result (λ places. places ≡ record { side = side; rows = rows.now }) }
    {
        let mut by_href = BTreeMap::new(alloc);
        for row in rows {
            if let Some(href) = href_on(side, row) {
                add(&mut by_href, String::from_str(alloc, href)?, row)?;
            }
        }
        Ok(Places {
            side,
            rows,
            by_href,
        })
    }

    /// The first row that has this href and etag for the side.
    ///
    /// It looks at the rows of this href alone, so a listing, whose hrefs differ, looks at each row once.
    pub fn row_at(&self, href: &str, etag: &str) -> Option<&'r Row>
        ensures { lent_row result ≡ row_at self.now.side href.now etag.now self.now.rows }
    {
        match self.by_href.get(href) {
            Some(same_href) => first_with(self.side, same_href, etag),
            None => None,
        }
    }
}
