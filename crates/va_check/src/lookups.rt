// Rows found by their ids, which ascend.
ghost use Rattle.std.specs.Prelude.{◌≡◌, ℕ, nat_lt};
ghost use Rattle.va_cert.specs.Forms.{IdsAscend};
ghost use Rattle.va_check.specs.Lookups.{found, lent};

use va_cert::{BoxRow, Taken};

/// What has an id.
pub(crate) trait Row {
    ghost key: { Self → ℕ };

    fn id(&self) -> u32
        ensures { result ≡ key self.now };
}

impl Row for BoxRow {
    ghost key = { λ row. row.id };

    fn id(&self) -> u32 {
        self.id
    }
}

impl Row for Taken {
    ghost key = { λ taken. taken.id };

    fn id(&self) -> u32 {
        self.id
    }
}

/// The row of an id, if there is one.
pub(crate) fn row_of<R: Row>(rows: &[R], id: u32) -> Option<&R>
    requires { IdsAscend R.key rows.now }
    ensures { lent result ≡ found R.key id rows.now }
{
    let at = rows.partition_point(
        |row: &R| -> bool
            ensures { result ≡ nat_lt (R.key row.now) id }
        { row.id() < id },
    );
    if at == rows.len() {
        return None;
    }
    let row = &rows[at];
    if row.id() == id { Some(row) } else { None }
}
