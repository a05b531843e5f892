// The translator: a routine in records to its locations and edges, in two lent tables.
#![tactic(auto)]

ghost use Rattle.std.specs.Prelude.{◌≡◌, length, replicate};
ghost use Rattle.model.specs.Answers.{outcome_of};
ghost use Rattle.model.specs.Records.{is_accepted};
ghost use Rattle.model.specs.Translate.{translate};
ghost use Rattle.model.specs.Runs.{IsRoutineOf};
ghost use Rattle.automaton.specs.Ready.{ListReady};

use input::Routine;
use listing::Listing;
use model::{Counts, Reason, Refusal};

// Clears both tables.
fn clear_both(locations: &mut [u8], edges: &mut [u8])
    ensures { (locations.new ≡ replicate (length locations.old) 0)
        × (edges.new ≡ replicate (length edges.old) 0) }
{
    fill::fill(locations, 0);
    fill::fill(edges, 0);
}

// The listing of a checked input, in cleared tables that have a place for each starting shape.
fn list(
    input: &[u8],
    routine: Routine,
    locations: &mut [u8],
    edges: &mut [u8],
) -> Result<Counts, Refusal>
    requires { ListReady input.now routine.statements routine.shapes locations.old edges.old }
    ensures { outcome_of result locations.new edges.new
        ≡ translate input.now (length locations.old) (length edges.old) }
{
    starts::enter_starts(input, routine.statements, routine.shapes, locations);
    let mut index = [0u16; index::SIZE];
    index::enter_all(&locations[..], routine.shapes, &mut index);
    let counts = Counts {
        locations: routine.shapes,
        edges: 0,
    };
    let mut listing = Listing {
        locations,
        edges,
        index: &mut index,
        counts,
    };
    let listed = explore::explore_all(input, routine.statements, &mut listing);
    if listed.is_err() {
        clear_both(locations, edges);
    }
    listed
}

// For every input and any tables: the answer and every byte of both tables are what the definition says, and the
// automaton that stands in the tables, with the counts answered, is the routine (demand 3).
pub fn translate(input: &[u8], locations: &mut [u8], edges: &mut [u8]) -> Result<Counts, Refusal>
    ensures outcome { outcome_of result locations.new edges.new
        ≡ translate input.now (length locations.old) (length edges.old) }
    ensures automaton { (outcome_of result locations.new edges.new).verdict ≡ is_accepted
        → IsRoutineOf input.now (outcome_of result locations.new edges.new).tables }
{
    clear_both(locations, edges);
    let routine = input::check(input)?;
    let most = location_table::places(model::MOST_LOCATIONS, locations.len());
    if most < routine.shapes {
        return Err(Reason::LocationsFull.at(most));
    }
    list(input, routine, locations, edges)
}
