// The calls for Rust and C: a slice passes as a pointer and a length. Answers are written over the start of the lent
// slices, as far as these reach. Each call answers the refusal's number, 0 for none, and writes its place; of a move
// and a walk, which advance a struct that is lent, it is always 0 and not written. A search refuses nothing, and
// answers whether there is such a record. What a call writes must not overlap with anything else that is lent to it:
// the contracts are about slices that are apart. The calls are declared in `bindings/` and `include/currantplane.h`,
// which `tests/declarations` compares with this file.
#![tactic(auto)]

ghost use Rattle.std.specs.Prelude.{◌≡◌, length};
ghost use Rattle.model.specs.Answers.{found_numbers};
ghost use Rattle.model.specs.Image.{fold_image, step_image, unfold_image};
ghost use Rattle.model.specs.Part.{record_part};
ghost use Rattle.model.specs.Ranges.{ranged_to, ranging};
ghost use Rattle.model.specs.Search.{searched};
ghost use Rattle.model.specs.Structs.{tables_in, tables_lent};
ghost use Rattle.model.specs.Walking.{moved, walked};
ghost use Rattle.currantplane.specs.Calls.{IsFolded, IsRanged, IsRecord, IsStepped, IsTranslated, IsUnfolded};

use answers::{
    lay, lay_ranges, step_ended, step_numbers, tell, tell_ended, tell_found, tell_node,
    tell_unfolded,
};
use model::{Configuration, Counts, MOST_NODES, RECORD, Ranged, Tables};

// The tables that are lent, with their counts.
fn lent<'a>(
    locations: &'a [u8],
    edges: &'a [u8],
    location_count: usize,
    edge_count: usize,
) -> Tables<'a>
    ensures { tables_lent result ≡ tables_in locations.now edges.now
        (record { locations = location_count; edges = edge_count }) }
{
    Tables {
        locations,
        edges,
        counts: Counts {
            locations: location_count,
            edges: edge_count,
        },
    }
}

// Writes the refusal's place, the number of locations, the number of edges and the refusal's node over `answer`.
#[unsafe(no_mangle)]
pub extern "C" fn currantplane_translate(
    input: &[u8],
    locations: &mut [u8],
    edges: &mut [u8],
    answer: &mut [usize],
) -> u8
    ensures { IsTranslated input.now (length locations.old) (length edges.old)
        answer.old result answer.new locations.new edges.new }
{
    match automaton::translate(input, locations, edges) {
        Ok(counts) => {
            tell(answer, 0, counts.locations, counts.edges);
            tell_node(answer, None);
            0
        }
        Err(refusal) => {
            tell(answer, refusal.place, 0, 0);
            tell_node(answer, refusal.reason.node());
            refusal.reason.number()
        }
    }
}

// The record with a number out of two tables: `table` is 0 for locations and 1 for edges. Writes the refusal's place,
// where the record begins in its table, and its length over `answer`, so that it is read where it stands.
#[unsafe(no_mangle)]
pub extern "C" fn currantplane_record<'a>(
    locations: &'a [u8],
    edges: &'a [u8],
    location_count: usize,
    edge_count: usize,
    table: usize,
    number: usize,
    answer: &mut [usize],
) -> u8
    ensures { IsRecord
        (record_part (tables_in locations.now edges.now
        (record { locations = location_count; edges = edge_count })) table number)
        answer.old result answer.new }
{
    let tables = lent(locations, edges, location_count, edge_count);
    part::tell_part(tables, table, number, answer)
}

// The newest of a table's first `count` records that equals a record. It refuses nothing: it answers 1 and writes the
// record's number, or answers 0 for none and writes 0.
#[unsafe(no_mangle)]
pub extern "C" fn currantplane_search(
    table: &[u8],
    count: usize,
    record: &[u8],
    number: &mut usize,
) -> u8
    ensures { (result ≡ (found_numbers (searched table.now count «record».now)).0)
        × (number.new ≡ (found_numbers (searched table.now count «record».now)).1) }
{
    tell_found(table_search::search_table(table, count, record), number)
}

#[unsafe(no_mangle)]
pub extern "C" fn currantplane_fold(
    pointers: &[u8],
    cells: &[u8],
    shape: &mut [u8],
    counters: &mut [u32],
    place: &mut usize,
) -> u8
    ensures { IsFolded (fold_image pointers.now cells.now) result place.new
        shape.new shape.old counters.new counters.old }
{
    // a refused fold gives zeros
    match heap_operations::fold(pointers, cells) {
        Ok(folded) => {
            lay(&folded.shape, shape);
            lay(&folded.counters, counters);
            tell_ended(Ok(()), place)
        }
        Err(refusal) => {
            lay(&[0u8; RECORD], shape);
            lay(&[0u32; MOST_NODES], counters);
            tell_ended(Err(refusal), place)
        }
    }
}

// Writes the refusal's node too.
#[unsafe(no_mangle)]
pub extern "C" fn currantplane_unfold(
    shape: &[u8],
    counters: &[u32],
    pointers: &mut [u8],
    cells: &mut [u8],
    place: &mut usize,
    node: &mut u8,
) -> u8
    ensures { IsUnfolded
        (unfold_image shape.now counters.now pointers.old cells.old)
        result place.new node.new pointers.new cells.new }
{
    tell_unfolded(
        heap_operations::unfold(shape, counters, pointers, cells),
        place,
        node,
    )
}

// Writes the fault, 1 for a stop, the branch and the next statement over `answer`.
#[unsafe(no_mangle)]
pub extern "C" fn currantplane_step(
    pointers: &mut [u8],
    cells: &mut [u8],
    statement: &[u8],
    pick: u8,
    cell: usize,
    answer: &mut [u8],
    place: &mut usize,
) -> u8
    ensures { IsStepped
        (step_image statement.now pick cell pointers.old cells.old)
        result place.new pointers.new cells.new answer.new answer.old }
{
    let stepped = heap_operations::step(pointers, cells, statement, pick, cell);
    let numbers = step_numbers(stepped);
    lay(&numbers, answer);
    tell_ended(step_ended(stepped), place)
}

// One move: the configuration stays with the caller, and is advanced in its own record.
#[unsafe(no_mangle)]
pub extern "C" fn currantplane_move(
    configuration: &mut Configuration,
    locations: &[u8],
    edges: &[u8],
    location_count: usize,
    edge_count: usize,
    number: usize,
) -> u8
    ensures { (result ≡ (moved (tables_in locations.now edges.now
        (record { locations = location_count; edges = edge_count })) configuration.old number).refusal)
        × (configuration.new ≡ (moved (tables_in locations.now edges.now
        (record { locations = location_count; edges = edge_count })) configuration.old number
        ).configuration) }
{
    let tables = lent(locations, edges, location_count, edge_count);
    match walking::make_move(*configuration, tables, number) {
        Ok(moved) => {
            *configuration = moved;
            0
        }
        Err(refusal) => refusal.number(),
    }
}

// A walk: the configuration is advanced in its own record, and how many moves were made is written.
#[unsafe(no_mangle)]
pub extern "C" fn currantplane_walk(
    configuration: &mut Configuration,
    locations: &[u8],
    edges: &[u8],
    location_count: usize,
    edge_count: usize,
    path: &[u32],
    made: &mut usize,
) -> u8
    ensures { (result ≡ (walked (tables_in locations.now edges.now
        (record { locations = location_count; edges = edge_count })) configuration.old
        path.now).refusal)
        × ((made.new ≡ (walked (tables_in locations.now edges.now
        (record { locations = location_count; edges = edge_count })) configuration.old
        path.now).made)
        × (configuration.new ≡ (walked (tables_in locations.now edges.now
        (record { locations = location_count; edges = edge_count })) configuration.old
        path.now).configuration)) }
{
    let tables = lent(locations, edges, location_count, edge_count);
    let walked = walking::make_walk(*configuration, tables, path);
    *configuration = walked.configuration;
    *made = walked.made;
    walked.refused.map_or(0, |refusal| refusal.number())
}

// Whether some start within the ranges follows a path: `ranges` has the lowest values of twelve counters, then the
// highest. Writes the refusal's place, or the first position of the path where none can go on; 1 where some start
// follows it, else 0; and the location reached, over `answer`; and where some start does, the ranges of the final
// counters over `ranges`.
#[unsafe(no_mangle)]
pub extern "C" fn currantplane_ranges(
    locations: &[u8],
    edges: &[u8],
    location_count: usize,
    edge_count: usize,
    start: usize,
    path: &[u32],
    ranges: &mut [u32],
    answer: &mut [usize],
) -> u8
    ensures { IsRanged (ranged_to (ranging (tables_in locations.now edges.now
        (record { locations = location_count; edges = edge_count })) start ranges.old
        path.now)) result ranges.old ranges.new
        answer.old answer.new }
{
    let tables = lent(locations, edges, location_count, edge_count);
    match ranging::follow_ranges(tables, start, &ranges[..], path) {
        Ok(
            Ranged::Reached {
                location,
                lows,
                highs,
            },
        ) => {
            tell(answer, 0, 1, location);
            lay_ranges(&lows, &highs, ranges);
            0
        }
        Ok(Ranged::Stuck { position }) => {
            tell(answer, position, 0, 0);
            0
        }
        Err(refusal) => {
            tell(answer, refusal.place(), 0, 0);
            refusal.number()
        }
    }
}
