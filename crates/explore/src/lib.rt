// The exploration: each location in turn, by number, with its statement decoded; its edges go into the listing.
#![tactic(auto)]

ghost use Rattle.std.specs.Prelude.{◌≡◌, ◌+◌, ◌*◌, ◌<◌, ◌≤◌, length};
ghost use Rattle.model.specs.Base.{record_size};
ghost use Rattle.model.specs.Records.{record_at};
ghost use Rattle.listing.specs.Lent.{SamePlaces};
ghost use Rattle.explore.specs.Lent.{AllExplore, LocationExplores, Ready};

use listing::Listing;
use model::{Counts, Reason, Refusal};

// Copies the record of location i.
fn copy_location(listing: &Listing, i: usize, rec: &mut [u8])
    requires { (record_size * i + record_size ≤ length listing.now.locations.now) × (length rec.old ≡ record_size) }
    ensures { rec.new ≡ record_at listing.now.locations.now i }
{
    word::copy_record(model::record_at(listing.locations, i), rec);
}

// Adds the edges of location i; a fault has none.
pub fn explore_location(
    input: &[u8],
    n: usize,
    listing: &mut Listing,
    i: usize,
) -> Result<(), Reason>
    requires { Ready input.now n listing.old × (i < listing.old.counts.locations) }
    ensures explored { LocationExplores input.now n listing.old i listing.new result }
    ensures same { SamePlaces listing.old listing.new }
{
    // a copy: the table that the record stands in grows while the location is explored
    let mut location = [0u8; model::RECORD];
    copy_location(listing, i, &mut location);
    if location[2] != 0 {
        return Ok(());
    }
    let d = statement::decode(model::record_at(input, location[1] as usize));
    location_edges::add_edges(d, &location, listing, i)
}

// Explores all locations, by number, and answers how many locations and edges there are then.
pub fn explore_all(input: &[u8], n: usize, listing: &mut Listing) -> Result<Counts, Refusal>
    requires { Ready input.now n listing.old }
    ensures explored { AllExplore input.now n listing.old listing.new result }
    ensures same { SamePlaces listing.old listing.new }
{
    let mut i = 0;
    // no range: each turn may add locations, which are explored too
    while i < listing.counts.locations {
        explore_location(input, n, listing, i).map_err(|reason| reason.at(i))?;
        i += 1;
    }
    Ok(listing.counts)
}
