// The heap image that a shape with counters unfolds to: cells are numbered from 0, node by node, head to tail.
#![tactic(auto)]

ghost use Rattle.std.specs.Prelude.{◌≡◌, true, ◌++◌, map, ◌+◌, ◌<◌, ◌≤◌, leb, length, take};
ghost use Rattle.model.specs.Base.{all, sum, most_cells};
ghost use Rattle.model.specs.Image.{unfold_heap, cell_bytes_of};
ghost use Rattle.model.specs.Records.{byte, shape_of, val_byte};
ghost use Rattle.unfolding.specs.Bytes.{FirstCells, image_bytes, placed_byte, strand_bytes, strands_bytes};
ghost use Rattle.unfolding.specs.Ready.{UnfoldReady};

// Enters the first cell of each node into the table.
fn first_cells(counters: &[u32], firsts: &mut [u8])
    requires { (length firsts.old ≡ length counters.now) × (sum (λ v. v) counters.now ≤ most_cells) }
    ensures { FirstCells counters.now firsts.new }
{
    let mut at: u32 = 0;
    for (n, counter) in counters.iter().enumerate() {
        firsts[n] = at as u8;
        at += *counter;
    }
}

// What a value of the shape is in the heap: a node becomes its first cell.
fn placed(firsts: &[u8], value: u8) -> u8
    ensures { result ≡ placed_byte firsts.now value }
{
    firsts.get(value as usize).copied().unwrap_or(value)
}

// Writes the heap's pointers for those of the shape.
fn place_pointers(firsts: &[u8], values: &[u8], pointers: &mut [u8])
    requires { length values.now ≡ length pointers.old }
    ensures { pointers.new ≡ map (placed_byte firsts.now) values.now }
{
    for (i, value) in values.iter().enumerate() {
        pointers[i] = placed(firsts, *value);
    }
}

// Writes the strand of count cells from cell at on, whose last cell holds value.
fn write_strand(cells: &mut [u8], at: usize, count: usize, value: u8)
    requires { (1 ≤ count) × (at + count ≤ length cells.old) × (length cells.old ≤ most_cells) }
    ensures { take (at + count) cells.new
        ≡ take at cells.old ++ strand_bytes at count value }
{
    let last = at + count - 1;
    for i in at..last {
        cells[i] = (i + 1) as u8;
    }
    cells[last] = value;
}

// Writes the strand of each node from cell 0 on, and answers the number of cells.
fn write_strands(firsts: &[u8], successors: &[u8], counters: &[u32], cells: &mut [u8]) -> usize
    requires filled { (length successors.now ≡ length counters.now) × (all (leb 1) counters.now ≡ true) }
    requires room { (sum (λ v. v) counters.now ≤ length cells.old) × (length cells.old ≤ most_cells) }
    ensures count { result ≡ sum (λ v. v) counters.now }
    ensures bytes { take result cells.new
        ≡ strands_bytes firsts.now 0 successors.now counters.now }
{
    let mut at = 0;
    for (n, counter) in counters.iter().enumerate() {
        let count = *counter as usize;
        write_strand(cells, at, count, placed(firsts, successors[n]));
        at += count;
    }
    at
}

// Writes every cell: the strands from cell 0 on, the rest not in use.
fn write_cells(firsts: &[u8], successors: &[u8], counters: &[u32], cells: &mut [u8])
    requires filled { (length successors.now ≡ length counters.now) × (all (leb 1) counters.now ≡ true) }
    requires room { (sum (λ v. v) counters.now ≤ length cells.old) × (length cells.old ≤ most_cells) }
    ensures { cells.new ≡ image_bytes (length cells.old)
        (strands_bytes firsts.now 0 successors.now counters.now) }
{
    let count = write_strands(firsts, successors, counters, cells);
    cells[count..].fill(model::UNUSED);
}

// Writes the image of the shape in rec, unfolded by the counters.
pub fn unfold_shape(rec: &[u8], counters: &[u32], pointers: &mut [u8], cells: &mut [u8])
    requires { UnfoldReady rec.now counters.now pointers.old cells.old }
    ensures pointers { pointers.new
        ≡ map val_byte (unfold_heap (shape_of rec.now)
        (take (byte rec.now 3) counters.now)).ptrs }
    ensures cells { cells.new
        ≡ cell_bytes_of (length cells.old)
        (unfold_heap (shape_of rec.now) (take (byte rec.now 3) counters.now)) }
{
    let k = rec[3] as usize;
    let end = 10 + k;
    let mut firsts = [0u8; model::MOST_NODES];
    first_cells(counters, &mut firsts);
    place_pointers(&firsts, &rec[4..10], pointers);
    write_cells(&firsts, &rec[10..end], &counters[..k], cells);
}
