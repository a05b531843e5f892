// Tables of records of 32 bytes.

ghost use Rattle.std.specs.Prelude.{◌≡◌, ◌+◌, ◌*◌, ◌≤◌, length};
ghost use Rattle.model.specs.Base.{record_size};
ghost use Rattle.model.specs.Records.{record_at};

use super::{Counts, RECORD};

// The two tables as a reader has them, with their counts in use.
#[derive(Clone, Copy)]
pub struct Tables<'a> {
    pub locations: &'a [u8],
    pub edges: &'a [u8],
    pub counts: Counts,
}

// Record n of a table, where it stands.
pub fn record_at(table: &[u8], n: usize) -> &[u8; RECORD]
    requires { record_size * n + record_size ≤ length table.now }
    ensures { result.now ≡ record_at table.now n }
{
    table[RECORD * n..].first_chunk().unwrap()
}
