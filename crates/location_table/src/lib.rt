// The places of a table, and the location table with a target kept: a new one takes the next place.
#![tactic(auto)]

ghost use Rattle.std.specs.Prelude.{◌≡◌, ◌+◌, ◌*◌, ◌≤◌, length};
ghost use Rattle.model.specs.Base.{record_size};
ghost use Rattle.model.specs.Part.{in_places};
ghost use Rattle.model.specs.Records.{byte};
ghost use Rattle.model.specs.Translate.{places};
ghost use Rattle.record.specs.Written.{placed};
ghost use Rattle.location_table.specs.Target.{target_kept, count_kept};

use model::Statement;

// How many records a table of len bytes has a place for.
pub fn places(most: usize, len: usize) -> usize
    ensures { result ≡ places most len }
{
    most.min(len / model::RECORD)
}

// Whether a count is within the places of a table of so many bytes.
pub fn in_places(most: usize, count: usize, bytes: usize) -> bool
    ensures { result ≡ in_places most count bytes }
{
    count <= places(most, bytes)
}

// The L record rec as number n of the table: the part of the table from 32 times the number on is lent to the writer.
fn put_location(table: &mut [u8], n: usize, rec: &[u8])
    requires { (record_size * n + record_size ≤ length table.old) × (length rec.now ≡ record_size)
        × (byte rec.now 0 ≡ 0x4c) }
    ensures { table.new ≡ placed table.old n rec.now }
{
    let at = model::RECORD * n;
    record::write_location(&mut table[at..], Statement(rec[1]), rec[2], rec);
}

// A target with number j, the next one where it is new: it is written there, and the count of locations is answered.
pub fn keep_target(locations: &mut [u8], nl: usize, j: usize, target: &[u8]) -> usize
    requires { (record_size * j + record_size ≤ length locations.old) × (length target.now ≡ record_size)
        × (byte target.now 0 ≡ 0x4c) }
    ensures { (result ≡ count_kept nl j)
        × (locations.new ≡ target_kept locations.old nl j target.now) }
{
    if j < nl {
        nl
    } else {
        put_location(locations, nl, target);
        nl + 1
    }
}
