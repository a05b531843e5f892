// One edge of a location: the statement is run on the location's shape, opened for the way, and the result is folded.
// A test, a choice or a skip needs no run.
#![tactic(auto)]

ghost use Rattle.std.specs.Prelude.{◌≡◌, true, ◌≤◌, length, set};
ghost use Rattle.model.specs.Base.{most_nodes, record_size};
ghost use Rattle.model.specs.Codes.{fault_code, op_number};
ghost use Rattle.model.specs.Structs.{keeps_at};
ghost use Rattle.edge.specs.Edge.{EdgeOn, EdgeReady, FaultMade, KeepsShape, Leaves, LeavesBy};

use cell_sum::Weights;
use model::{Decoded, EdgeMade, Fault, Guards, Statement};
use way::Way;

// The edge to a fault.
fn fault_edge(location: &[u8], fault: Fault, guards: Guards, target: &mut [u8]) -> EdgeMade
    requires { (length location.now ≡ record_size) × (length target.old ≡ record_size) }
    ensures { FaultMade location.now (fault_code fault) guards target.new result }
{
    record::write_fault(target, Statement(location[1]), fault.number());
    EdgeMade {
        branch: 0,
        guards,
        nodes: 0,
    }
}

// The edge to the statement of the branch, whose shape the target has already: the target's head, and what else there
// is to an edge.
fn edge_on(d: Decoded, branch: u8, guards: Guards, nodes: usize, target: &mut [u8]) -> EdgeMade
    requires { (length target.old ≡ record_size) × (nodes ≤ most_nodes) }
    ensures { EdgeOn d branch guards nodes target.old target.new result }
{
    record::write_head(target, b'L', statement::next_of(d, branch), nodes);
    EdgeMade {
        branch,
        guards,
        nodes,
    }
}

// The edge by running the statement and folding what the run leaves.
fn run_edge(
    location: &[u8],
    d: Decoded,
    way: Way,
    target: &mut [u8],
    updates: &mut [u16],
) -> Result<EdgeMade, Fault>
    requires { EdgeReady location.now d way target.old updates.old }
    ensures { Leaves location.now d way target.new updates.new result }
{
    let mut pointers = [0u8; model::POINTERS];
    let mut cells = [0u8; 16];
    let mut order = [0u8; 16];
    let mut seen = [0u8; 16];
    let gone = shape_run::run_way(
        location,
        d,
        way,
        &mut pointers,
        &mut cells,
        &mut order,
        &mut seen,
    )?;
    let weights = Weights {
        nodes: location[3] as usize,
        split: way.split,
    };
    let m = refold::leave(
        &pointers,
        &cells[..gone.cells],
        &order[..gone.visited],
        &seen,
        weights,
        target,
        updates,
    );
    Ok(edge_on(d, gone.branch, way.guards, m, target))
}

// Writes the location's record with another statement: by words, since it is read as words soon after.
fn move_to(location: &[u8], to: Statement, target: &mut [u8])
    requires { (length location.now ≡ record_size) × (length target.old ≡ record_size) }
    ensures { target.new ≡ set location.now 1 to.0 }
{
    word::copy_record(location, target);
    let first = word::eight(location, 0);
    word::put_eight(
        target,
        first % 256 + 256 * (to.0 as u64) + 0x1_0000 * (first / 0x1_0000),
    );
}

// The edge of a statement that is done and keeps the shape: the counters stay too.
fn keep_edge(
    location: &[u8],
    d: Decoded,
    way: Way,
    target: &mut [u8],
    updates: &mut [u16],
) -> EdgeMade
    requires { (keeps_at (op_number d.op) ≡ true) × KeepsShape location.now d
        × EdgeReady location.now d way target.old updates.old }
    ensures { LeavesBy location.now d way target.new updates.new result }
{
    let branch = branch::branch_of(d, way.pick, &location[4..10]);
    move_to(location, statement::next_of(d, branch), target);
    update::carry_updates(updates);
    let guards = way.guards;
    EdgeMade {
        branch,
        guards,
        nodes: location[3] as usize,
    }
}

// The edge of a test, a choice or a skip, which are not run: a test that looks at an undefined pointer is a fault, and
// this is looked at first; else the shape is kept.
fn still_edge(
    location: &[u8],
    d: Decoded,
    way: Way,
    target: &mut [u8],
    updates: &mut [u16],
) -> Result<EdgeMade, Fault>
    requires { (keeps_at (op_number d.op) ≡ true) × EdgeReady location.now d way target.old updates.old }
    ensures { Leaves location.now d way target.new updates.new result }
{
    effect::test_fault(d, &location[4..10])?;
    Ok(keep_edge(location, d, way, target, updates))
}

// The edge by one way where the statement has no fault.
fn done_edge(
    location: &[u8],
    d: Decoded,
    way: Way,
    target: &mut [u8],
    updates: &mut [u16],
) -> Result<EdgeMade, Fault>
    requires { EdgeReady location.now d way target.old updates.old }
    ensures { Leaves location.now d way target.new updates.new result }
{
    if statement::leaves_heap(d.op) {
        still_edge(location, d, way, target, updates)
    } else if loss::surely_lost(location, d, way) {
        Err(Fault::Leak)
    } else {
        run_edge(location, d, way, target, updates)
    }
}

// The edge by one way out of a location: its target's record, its updates, its branch and guards, and how many new
// nodes there are.
pub fn one_edge(
    location: &[u8],
    d: Decoded,
    way: Way,
    target: &mut [u8],
    updates: &mut [u16],
) -> EdgeMade
    requires { EdgeReady location.now d way target.old updates.old }
    ensures { LeavesBy location.now d way target.new updates.new result }
{
    match done_edge(location, d, way, target, updates) {
        Ok(made) => made,
        Err(fault) => fault_edge(location, fault, way.guards, target),
    }
}
