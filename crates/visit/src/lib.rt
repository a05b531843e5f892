// The visit of a heap image: the cells in order of first visit with the number of their holders, and the test for lost
// cells. A heap image is pointer bytes and cell bytes: a cell number, 0xfe null, 0xff undefined, for a cell 0xfd not
// in use. Each is linear in the number of cells: the mark of a cell says that it was seen, and counts its holders.
#![tactic(auto)]

ghost use Rattle.std.specs.Prelude.{◌≡◌, not, ◌&&◌, map, ◌≤◌, eqb, length, get_or, take};
ghost use Rattle.model.specs.Heap.{each_used};
ghost use Rattle.model.specs.Image.{cell_slot};
ghost use Rattle.visit.specs.Visit.{VisitReady, Visited};
ghost use Rattle.visit.specs.Steps.{WalkReady, Walked, lost_at};

// ---- the order of first visit

// Follows nexts from the value start until null, undefined or a cell seen before. A new cell is put behind the count
// cells of the order; the answer is how many there are then. The mark of a cell counts its holders, to 2 at most:
// start is what a pointer holds, and a pointer counts twice. The order is lent with its count beside it: fixed memory,
// no heap, and room that differs from caller to caller.
fn walk_from(cells: &[u8], order: &mut [u8], seen: &mut [u8], count: usize, start: u8) -> usize
    requires { WalkReady cells.now order.old seen.old count start }
    ensures { Walked cells.now (take count order.old) seen.old start
        order.new seen.new result }
{
    let mut n = count;
    let mut v = start as usize;
    let mut holders: u8 = 2;
    // A while, since it follows successors and counts no index. Null and undefined are past the last cell.
    while v < cells.len() {
        if seen[v] != 0 {
            seen[v] = 2;
            return n;
        }
        seen[v] = holders;
        holders = 1;
        order[n] = v as u8;
        n += 1;
        v = cells[v] as usize;
    }
    n
}

// The cells in order of first visit, one walk for each pointer in turn; `seen` then marks exactly these. The mark is 2
// for a core cell and less for any other, where a lost cell is no holder.
pub fn visit(pointers: &[u8], cells: &[u8], order: &mut [u8], seen: &mut [u8]) -> usize
    requires { VisitReady pointers.now cells.now order.old seen.old }
    ensures { Visited pointers.now cells.now order.new seen.new result }
{
    let mut n = 0;
    for start in pointers {
        n = walk_from(cells, order, seen, n, *start);
    }
    n
}

// ---- lost cells

// Whether, beside what was kept before, a cell that holds the byte b is: it is lost where it is in use and without a
// mark.
fn kept_too(before: bool, b: u8, mark: u8) -> bool
    ensures { result ≡ not (lost_at b mark) && before }
{
    before & ((b == model::UNUSED) | (mark != 0))
}

// Whether every cell in use has a mark. All cells are looked at: that is quicker than to stop at the first that is
// lost.
pub fn nothing_lost(cells: &[u8], seen: &[u8]) -> bool
    requires { length cells.now ≤ length seen.now }
    ensures { result ≡ each_used (λ c. not (eqb (get_or seen.now c 0) 0)) 0
        (map cell_slot cells.now) }
{
    let mut kept = true;
    for (i, b) in cells.iter().enumerate() {
        kept = kept_too(kept, *b, seen[i]);
    }
    kept
}
