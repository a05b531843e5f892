// The edges of one location with a shape, way by way, into a listing.
#![tactic(auto)]

ghost use Rattle.listing.specs.Lent.{SamePlaces};
ghost use Rattle.location_edges.specs.Lent.{EdgesAdd, ShapeReady, WayAdds, WayReady};

use listing::Listing;
use model::{Decoded, Reason};
use way::Way;

// Adds the edge of location i by one way.
fn add_way(
    d: Decoded,
    location: &[u8],
    way: Way,
    listing: &mut Listing,
    i: usize,
) -> Result<(), Reason>
    requires { WayReady location.now d way listing.old i }
    ensures added { WayAdds location.now d way listing.old i listing.new result }
    ensures same { SamePlaces listing.old listing.new }
{
    let mut target = [0u8; model::RECORD];
    let mut updates = [0u16; 16];
    let made = edge::one_edge(location, d, way, &mut target, &mut updates);
    listing.add_edge(i, made, &target, &updates)
}

// Adds the edges of a location with a shape, way by way. One call for all of them, which the compiler then inlines.
pub fn add_edges(d: Decoded, location: &[u8], listing: &mut Listing, i: usize) -> Result<(), Reason>
    requires { ShapeReady location.now d listing.old i }
    ensures added { EdgesAdd location.now d listing.old i listing.new result }
    ensures same { SamePlaces listing.old listing.new }
{
    let view = way::view(d, &location[4..10]);
    let count = way::way_count(d.op, view);
    for j in 0..count {
        let way = way::way_at(view, j);
        add_way(d, location, way, listing, i)?;
    }
    Ok(())
}
