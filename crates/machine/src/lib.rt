// A statement run on a heap image that is lent. The translator runs this; the plain step takes the same steps in
// `image_run`, by the same laws.
#![tactic(auto)]

ghost use Rattle.std.specs.Prelude.{◌≡◌, ◌≤◌, length};
ghost use Rattle.model.specs.Codes.{fault_in};
ghost use Rattle.machine.specs.Run.{IsRun, RunReady, Settled, bytes, kept_by};

use model::{Decoded, Fault, Op};

// Whether no cell is lost, where n cells have marks: if that is all of them, there is nothing to look for.
fn keeps_all(cells: &[u8], seen: &[u8], n: usize) -> bool
    requires { length cells.now ≤ length seen.now }
    ensures { result ≡ kept_by cells.now seen.now n }
{
    n == cells.len() || visit::nothing_lost(cells, seen)
}

// What becomes of lost cells, where n cells have marks: they are collected, or they are a leak.
pub fn settle(collects: bool, cells: &mut [u8], seen: &[u8], n: usize) -> Result<(), Fault>
    requires { length cells.old ≤ length seen.now }
    ensures { Settled collects cells.old seen.now n (fault_in result) cells.new }
{
    if collects {
        collection::collect(cells, seen);
        return Ok(());
    }
    if keeps_all(&cells[..], seen, n) {
        Ok(())
    } else {
        Err(Fault::Leak)
    }
}

// Runs a statement: the faults of its effect first, then the effect, then what it lost. Answers how many cells were
// visited.
pub fn run(
    d: Decoded,
    x: usize,
    pointers: &mut [u8],
    cells: &mut [u8],
    order: &mut [u8],
    seen: &mut [u8],
) -> Result<usize, Fault>
    requires { RunReady d x (bytes pointers.old cells.old) order.old seen.old }
    ensures { IsRun d x (bytes pointers.old cells.old)
        (bytes pointers.new cells.new) order.new seen.new result }
{
    effect::run_effect(d, x, pointers, cells)?;
    let n = visit::visit(&pointers[..], &cells[..], order, seen);
    settle(d.op == Op::LetGo, cells, &seen[..], n)?;
    Ok(n)
}
