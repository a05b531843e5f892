// A statement run on a heap image that passed the checks: a fault leaves the image as it stood.
#![tactic(auto)]

ghost use Rattle.std.specs.Prelude.{true, map, ◌≡◌};
ghost use Rattle.model.specs.Codes.{fault_in};
ghost use Rattle.model.specs.Machine.{action};
ghost use Rattle.model.specs.Image.{cell_slot, heap_of};
ghost use Rattle.model.specs.Records.{val_of};
ghost use Rattle.model.specs.Structs.{op_in};
ghost use Rattle.effect.specs.Effect.{Named};
ghost use Rattle.image_run.specs.Taken.{Stands, TakenReady, next_at, takes};
ghost use Rattle.image_run.specs.Run.{StepReady, RunOn, Finished};

use model::{Decoded, Fault, Op};

// The next of the cell that the value at names; null where it names none.
fn next_at(at: u8, cells: &[u8]) -> u8
    requires { Named cells.now at }
    ensures { val_of result ≡ next_at (map cell_slot cells.now) (val_of at) }
{
    if model::UNUSED < at {
        return model::NULL;
    }
    let c = at as usize;
    cells[c]
}

// The value that a statement takes away: what pointer u holds, or the next of the cell that it holds; null where the
// heap stays. Cells that are lost were reached through it.
fn taken(d: Decoded, pointers: &[u8], cells: &[u8]) -> u8
    requires { TakenReady d pointers.now cells.now }
    ensures { val_of result ≡ takes (action (op_in d)) (heap_of pointers.now cells.now) }
{
    if statement::leaves_heap(d.op) {
        return model::NULL;
    }
    let i = d.u.0 as usize;
    let v = pointers[i];
    if statement::cuts_next(d.op) {
        next_at(v, cells)
    } else {
        v
    }
}

// Whether a value that was taken away is no cell, or a pointer holds it: then no cell is lost.
fn surely_kept(v: u8, pointers: &[u8]) -> bool
    ensures { result ≡ true → Stands (val_of v) (map val_of pointers.now) }
{
    model::UNUSED < v || pointers.contains(&v)
}

// Runs a statement on the image. These are the steps of `machine::run`: with a second caller, the compiler would no
// longer inline that into the exploration. The image had no lost cell, so that it is visited again only where what was
// taken away might leave one.
fn run_on(d: Decoded, x: usize, pointers: &mut [u8], cells: &mut [u8]) -> Result<(), Fault>
    requires { StepReady d x pointers.old cells.old }
    ensures { RunOn d x pointers.old cells.old
        (fault_in result) pointers.new cells.new }
{
    let v = taken(d, &pointers[..], &cells[..]);
    effect::run_effect(d, x, pointers, cells)?;
    if surely_kept(v, &pointers[..]) {
        return Ok(());
    }
    let mut order = [0u8; model::MOST_CELLS];
    let mut seen = [0u8; model::MOST_CELLS];
    let n = visit::visit(&pointers[..], &cells[..], &mut order, &mut seen);
    machine::settle(d.op == Op::LetGo, cells, &seen, n)
}

// Runs a statement on the image, of which ps and cs are a copy, so that a fault leaves it.
pub fn run_saved(
    d: Decoded,
    x: usize,
    pointers: &mut [u8],
    cells: &mut [u8],
    ps: &[u8],
    cs: &[u8],
) -> Result<(), Fault>
    requires ready { StepReady d x pointers.old cells.old }
    requires saved { (ps.now ≡ pointers.old) × (cs.now ≡ cells.old) }
    ensures { Finished d x pointers.old cells.old
        (fault_in result) pointers.new cells.new }
{
    let ran = run_on(d, x, pointers, cells);
    if ran.is_err() {
        pointers.copy_from_slice(ps);
        cells.copy_from_slice(cs);
    }
    ran
}
