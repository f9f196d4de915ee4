//! The row of an ident.

ghost use Rattle.std.specs.Prelude.{◌≡◌};
ghost use Rattle.std.specs.Cmp.Lexicographic.{slice_cmp};
ghost use Rattle.std.specs.Ordering.{nat_cmp};
ghost use Rattle.status_keeper.specs.Idents.{IsRising};
ghost use Rattle.status_keeper.specs.Rows.{row_of, row_idents};
ghost use Rattle.side_reads.specs.Places.{lent_row};

use status_keeper::Row;
use std::cmp::Ordering;

fn compare(row: &Row, ident: &str) -> Ordering
    ensures { result ≡ slice_cmp nat_cmp row.now.ident ident.now }
{
    row.ident.as_str().cmp(ident)
}

/// The row of an ident among rows in byte order of idents.
pub fn row_of<'r>(rows: &'r [Row], ident: &str) -> Option<&'r Row>
    requires { IsRising (row_idents rows.now) }
    ensures { lent_row result ≡ row_of ident.now rows.now }
{
    match rows.binary_search_by(|row| compare(row, ident)) {
        Ok(place) => Some(&rows[place]),
        Err(_) => None,
    }
}
