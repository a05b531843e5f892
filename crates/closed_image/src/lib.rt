// Whether a heap image is closed: its values name only cells in use. A heap image is pointer bytes and cell bytes: a
// cell number, 0xfe null, 0xff undefined, for a cell 0xfd not in use.
#![tactic(auto)]

ghost use Rattle.std.specs.Prelude.{◌≡◌, ◌&&◌, false, ◌++◌, map, ◌≤◌, drop, get_or, length};
ghost use Rattle.model.specs.Base.{all, most_cells};
ghost use Rattle.model.specs.Heap.{closed, in_use, named, slot_named};
ghost use Rattle.model.specs.Image.{cell_slot, heap_of};
ghost use Rattle.model.specs.Records.{val_of};
ghost use Rattle.visit.specs.Steps.{slot_at};

// Whether a value is null, undefined or a cell in use.
fn is_named(cells: &[u8], v: u8) -> bool
    ensures { result ≡ named (slot_at cells.now) (val_of v) }
{
    let c = v as usize;
    v == model::NULL || v == model::UNDEFINED || (c < cells.len() && cells[c] != model::UNUSED)
}

fn pointers_named(pointers: &[u8], cells: &[u8]) -> bool
    ensures { result ≡ all (named (slot_at cells.now)) (map val_of pointers.now) }
{
    pointers.iter().all(|v| is_named(cells, *v))
}

// Tells in the table of each cell's number whether that cell is in use. A comparison is stored and no branch taken, so
// that sixteen cells are done at once.
fn tell_used(cells: &[u8], fine: &mut [bool])
    requires { length cells.now ≤ length fine.old }
    ensures { fine.new ≡ map (λ b. in_use (cell_slot b)) cells.now
        ++ drop (length cells.now) fine.old }
{
    for (i, b) in cells.iter().enumerate() {
        fine[i] = *b != model::UNUSED;
    }
}

// Whether each cell's byte is fine by the table. All are looked at: that is quicker than to stop at the first that is
// not.
fn all_fine(cells: &[u8], fine: &[bool; 256]) -> bool
    ensures { result ≡ all (λ b. get_or fine.now b false) cells.now }
{
    cells.iter().fold(true, |kept, b| kept & fine[*b as usize])
}

// Whether every cell in use names only cells in use. A table tells of each byte whether a cell may hold it, so that no
// branch is taken for a cell: the processor would guess many wrong. Fine are the numbers of cells in use, 0xfd (a cell
// that is not in use names nothing), null and undefined.
fn cells_named(cells: &[u8]) -> bool
    requires { length cells.now ≤ most_cells }
    ensures { result ≡ all (slot_named (slot_at cells.now)) (map cell_slot cells.now) }
{
    let mut fine = [false; 256];
    tell_used(cells, &mut fine);
    fine[model::UNUSED as usize] = true;
    fine[model::NULL as usize] = true;
    fine[model::UNDEFINED as usize] = true;
    all_fine(cells, &fine)
}

// Whether every pointer, and every cell in use, names only cells in use.
pub fn is_closed(pointers: &[u8], cells: &[u8]) -> bool
    requires { length cells.now ≤ most_cells }
    ensures { result ≡ closed (heap_of pointers.now cells.now) }
{
    pointers_named(pointers, cells) && cells_named(cells)
}
