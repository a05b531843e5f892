// What a run leaves, folded by the marks of the run.
#![tactic(auto)]

ghost use Rattle.std.specs.Prelude.{◌≡◌, ◌<◌, length};
ghost use Rattle.model.specs.Base.{record_size};
ghost use Rattle.folding.specs.Fold.{folded_bytes};
ghost use Rattle.refold.specs.Refold.{IsLeft, LeaveReady};
ghost use Rattle.refold.specs.Worded.{ShapeFits, shape_bytes, shape_words};

use cell_sum::Weights;

// Writes the six pointers, the first six successors and the others over a record, each as a number, behind four zeros:
// by words, since the record is read as words soon after.
fn put_words(p: u64, low: u64, high: u64, target: &mut [u8])
    requires { (p < 0x1_0000_0000_0000) × (low < 0x1_0000_0000_0000) × (length target.old ≡ record_size) }
    ensures { target.new ≡ shape_words p low high }
{
    word::put_at(target, 0, p % 0x1_0000_0000 * 0x1_0000_0000);
    word::put_at(target, 8, p / 0x1_0000_0000 + low * 0x1_0000);
    word::put_at(target, 16, high);
    word::put_at(target, 24, 0);
}

// The record of a shape, but for its head: the pointers, and what the last cells of the segments hold, in terms of
// nodes, and zeros past them.
fn write_shape(pointers: &[u8], cells: &[u8], last: &[u8], node: &[u8], target: &mut [u8])
    requires { ShapeFits pointers.now cells.now last.now node.now target.old }
    ensures { target.new
        ≡ shape_bytes (folded_bytes node.now pointers.now cells.now
        last.now) }
{
    // six of the successors stand in the second word, with the last two pointers
    let (first, rest) = last.split_at(last.len().min(6));
    let p = folding::code_values(pointers, node);
    let low = folding::code_successors(cells, first, node);
    let high = folding::code_successors(cells, rest, node);
    put_words(p, low, high, target);
}

// Folds what a run left, by its visit order and marks: the target's record but for its head, and an update for each
// new node. Answers how many there are.
pub fn leave(
    pointers: &[u8],
    cells: &[u8],
    order: &[u8],
    held: &[u8],
    weights: Weights,
    target: &mut [u8],
    updates: &mut [u16],
) -> usize
    requires { LeaveReady pointers.now cells.now order.now held.now weights target.old updates.old }
    ensures { IsLeft pointers.now cells.now weights target.new
        updates.new result }
{
    let mut node = [0u8; 16];
    let mut last = [0u8; 16];
    let mut size = [0u32; 16];
    let m = segment::cut(order, held, &mut node, &mut last, &mut size);
    write_shape(pointers, cells, &last[..m], &node, target);
    // the updates come last: what was written byte by byte is read in words soon after
    cell_sum::sum_cells(order, &node, weights, updates);
    m
}
