// A listing in two lent tables grows by one edge: its target is looked for, and takes the next place where it is new.
#![tactic(auto)]

ghost use Rattle.std.specs.Prelude.{◌≡◌};
ghost use Rattle.index.specs.Index.{FindReady};
ghost use Rattle.search.specs.Search.{found_at};
ghost use Rattle.listing.specs.Grow.{KeepReady};
ghost use Rattle.listing.specs.Fields.{fields_to};
ghost use Rattle.listing.specs.Lent.{GrowsInto, IsKept, Ready, SamePlaces};

use model::{Counts, EdgeFields, EdgeMade, Reason};

// A listing in the two tables, as far as it is made, with the index of its locations.
#[derive(Drop)]
pub struct Listing<'a> {
    pub locations: &'a mut [u8],
    pub edges: &'a mut [u8],
    pub index: &'a mut [u16],
    pub counts: Counts,
}

// The fields of an edge from a location to another.
fn fields_to(made: EdgeMade, from: usize, to: usize) -> EdgeFields
    ensures { result ≡ fields_to made from to }
{
    let guards = made.guards;
    EdgeFields {
        branch: made.branch,
        from,
        to,
        guards,
        nodes: made.nodes,
    }
}

impl Listing<'_> {
    // The number of the location with a record and its hash, or the next where it is new.
    fn number_of(&self, h: usize, target: &[u8]) -> usize
        requires { FindReady self.now.index.now h self.now.locations.now self.now.counts.locations target.now }
        ensures { result ≡ found_at self.now.locations.now target.now self.now.counts.locations }
    {
        let nl = self.counts.locations;
        index::find(self.index, h, self.locations, nl, target).unwrap_or(nl)
    }

    // A target with number j and hash h is kept, in the table and in the index.
    fn keep_location(&mut self, j: usize, h: usize, target: &[u8])
        requires { KeepReady self.old.locations.now self.old.index.now j h target.now }
        ensures kept { IsKept self.old j h target.now self.new }
        ensures same { SamePlaces self.old self.new }
    {
        let nl = self.counts.locations;
        index::keep(self.index, nl, j, h);
        self.counts.locations = location_table::keep_target(self.locations, nl, j, target);
    }

    // Adds an edge of location `from`, where there is a place for all of it.
    pub fn add_edge(
        &mut self,
        from: usize,
        made: EdgeMade,
        target: &[u8],
        updates: &[u16],
    ) -> Result<(), Reason>
        requires { Ready self.old from made target.now updates.now }
        ensures grown { GrowsInto self.old from made target.now updates.now self.new result }
        ensures same { SamePlaces self.old self.new }
    {
        let nl = self.counts.locations;
        let ne = self.counts.edges;
        let h = index::hash(target);
        let j = self.number_of(h, target);
        let cl = location_table::places(model::MOST_LOCATIONS, self.locations.len());
        if cl <= j {
            return Err(Reason::LocationsFull);
        }
        let ce = location_table::places(model::MOST_EDGES, self.edges.len());
        if ce <= ne {
            return Err(Reason::EdgesFull);
        }
        self.keep_location(j, h, target);
        record::put_edge(self.edges, ne, fields_to(made, from, j), updates);
        self.counts.edges = ne + 1;
        Ok(())
    }
}
