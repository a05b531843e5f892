// The three calls on heap images: folding, unfolding and the plain step. They take any bytes and lengths: each tests,
// and answers a refusal, before it works. What they answer, and every byte afterwards, is the definition's.
#![tactic(auto)]

ghost use Rattle.std.specs.Prelude.{◌≡◌, Ok};
ghost use Rattle.model.specs.Answers.{folding_of, unfolding_of, stepping_of};
ghost use Rattle.model.specs.Image.{heap_of, fold_image, unfold_image, step_image};
ghost use Rattle.folding.specs.Shape.{ShapeReady};
ghost use Rattle.heap_operations.specs.Fold.{folded_heap};

use image_checks::{check_image, step_refusal, unfold_refusal};
use model::{Folded, Refusal, Statement, Stepped};
use plain_step::take_step;

// Folds a heap whose visit order and counts of holders are given. Sizes past the nodes stay zero.
fn fold_heap(pointers: &[u8], cells: &[u8], order: &[u8], held: &[u8]) -> Folded
    requires { ShapeReady pointers.now cells.now order.now held.now }
    ensures { folding_of (Ok result) ≡ folded_heap (heap_of pointers.now cells.now) }
{
    let mut node = [0u8; model::MOST_CELLS];
    let mut last = [0u8; model::MOST_NODES];
    let mut size = [0u32; model::MOST_NODES];
    let mut shape = [0u8; model::RECORD];
    let k = segment::cut_long(order, held, &mut node, &mut last, &mut size);
    folding::fold_shape(pointers, cells, &last[..k], &node, &mut shape[4..]);
    record::write_head(&mut shape, b'H', Statement(0), k);
    Folded {
        shape,
        counters: size,
    }
}

// Folds a heap image to its shape and counters.
pub fn fold(pointers: &[u8], cells: &[u8]) -> Result<Folded, Refusal>
    ensures { folding_of result ≡ fold_image pointers.now cells.now }
{
    let mut order = [0u8; model::MOST_CELLS];
    let mut seen = [0u8; model::MOST_CELLS];
    let n = check_image(pointers, cells, &mut order, &mut seen)?;
    Ok(fold_heap(pointers, cells, &order[..n], &seen))
}

// Writes the heap image of a shape with counters; a refused unfolding leaves pointers and cells.
pub fn unfold(
    rec: &[u8],
    counters: &[u32],
    pointers: &mut [u8],
    cells: &mut [u8],
) -> Result<(), Refusal>
    ensures { unfolding_of result pointers.new cells.new
        ≡ unfold_image rec.now counters.now pointers.old cells.old }
{
    unfold_refusal(rec, counters, pointers.len(), cells.len())?;
    unfolding::unfold_shape(rec, counters, pointers, cells);
    Ok(())
}

// One step of the plain machine; at a fault, a stop or a refusal pointers and cells stay.
pub fn step(
    pointers: &mut [u8],
    cells: &mut [u8],
    rec: &[u8],
    pick: u8,
    cell: usize,
) -> Result<Stepped, Refusal>
    ensures { stepping_of result pointers.new cells.new
        ≡ step_image rec.now pick cell pointers.old cells.old }
{
    step_refusal(rec, &pointers[..], &cells[..])?;
    take_step(pointers, cells, rec, pick, cell)
}
