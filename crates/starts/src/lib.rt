// The starting shapes of an input, entered as the first locations of a lent table.
#![tactic(auto)]

ghost use Rattle.std.specs.Prelude.{◌≡◌, map, ◌+◌, ◌*◌, ◌≤◌, length};
ghost use Rattle.model.specs.Base.{record_size};
ghost use Rattle.model.specs.Records.{loc_record, record_at};
ghost use Rattle.model.specs.Translate.{table_of};
ghost use Rattle.record.specs.Written.{location_bytes, placed};
ghost use Rattle.starts.specs.Starts.{start_locs, StartsReady};

use model::Statement;

// Enters the shape of record i of the input as location j, at statement 0 without a fault: the part of the table from
// 32 times its number on is lent to the writer.
fn put_start(input: &[u8], i: usize, locations: &mut [u8], j: usize)
    requires { (record_size * i + record_size ≤ length input.now)
        × (record_size * j + record_size ≤ length locations.old) }
    ensures { locations.new
        ≡ placed locations.old j (location_bytes 0 0 (record_at input.now i)) }
{
    record::write_location(
        &mut locations[model::RECORD * j..],
        Statement(0),
        0,
        model::record_at(input, i),
    );
}

// Enters the m starting shapes behind n statements as locations 0 on, in input order, into a cleared table.
pub fn enter_starts(input: &[u8], n: usize, m: usize, locations: &mut [u8])
    requires { StartsReady input.now n m locations.old }
    ensures { locations.new
        ≡ table_of (length locations.old) (map loc_record (start_locs n input.now)) }
{
    for j in 0..m {
        put_start(input, n + j, locations, j);
    }
}
