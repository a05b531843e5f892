// The search for a record called by itself, on any table, count and record.
#![tactic(auto)]

ghost use Rattle.std.specs.Prelude.{◌≡◌};
ghost use Rattle.model.specs.Answers.{found_of};
ghost use Rattle.model.specs.Search.{searched};

use model::{MOST_LOCATIONS, RECORD};

// The newest of the table's first `count` records that equals rec. A count above the table's places is cut to them, and
// a record that is not 32 bytes long is equal to none.
pub fn search_table(table: &[u8], count: usize, rec: &[u8]) -> Option<usize>
    ensures { found_of result ≡ searched table.now count rec.now }
{
    if rec.len() != RECORD {
        return None;
    }
    let places = location_table::places(MOST_LOCATIONS, table.len());
    search::find(table, count.min(places), rec)
}
