// The run by a way out of a location: its shape is opened for the way, and the statement run on that.
#![tactic(auto)]

ghost use Rattle.machine.specs.Run.{bytes};
ghost use Rattle.shape_run.specs.WayRun.{RunsReady, WayRan};

use model::{Decoded, Fault};
use way::Way;

// What the run by a way gives beside the heap image, where it has no fault: the branch, how many cells there are, and
// how many were visited.
#[derive(Clone, Copy)]
pub struct Gone {
    pub branch: u8,
    pub cells: usize,
    pub visited: usize,
}

// Opens the location's shape for the way and runs the statement on it; the marks of the run count holders.
pub fn run_way(
    location: &[u8],
    d: Decoded,
    way: Way,
    pointers: &mut [u8],
    cells: &mut [u8],
    order: &mut [u8],
    seen: &mut [u8],
) -> Result<Gone, Fault>
    requires { RunsReady location.now d way (bytes pointers.old cells.old) order.old seen.old }
    ensures { WayRan location.now d way (bytes pointers.new cells.new)
        order.new seen.new result }
{
    let k = location[3] as usize;
    let n = way::open_way(location, d.op, way, pointers, cells);
    let branch = branch::branch_of(d, way.pick, &pointers[..]);
    let visited = machine::run(d, k, pointers, &mut cells[..n], order, seen)?;
    Ok(Gone {
        branch,
        cells: n,
        visited,
    })
}
