// The checks of the calls on heap images: of an image, of an unfolding's record and counters, and of a step's record
// and entry.
#![tactic(auto)]

ghost use Rattle.std.specs.Prelude.{◌&&◌, ◌≡◌, eqb, length, replicate};
ghost use Rattle.model.specs.Base.{record_size, most_cells};
ghost use Rattle.model.specs.Codes.{op_number};
ghost use Rattle.model.specs.Image.{lengths, checks_unfold, checks_statement};
ghost use Rattle.model.specs.Records.{first_failed, layout_h};
ghost use Rattle.model.specs.Structs.{Tells, failed_in, failing};
ghost use Rattle.image_checks.specs.Checked.{EntryChecked, ImageChecked};

use model::{Op, Reason};

// Whether there are six pointers and at most 240 cells.
fn lengths_ok(pointers: &[u8], cells: &[u8]) -> bool
    ensures { result ≡ lengths pointers.now cells.now }
{
    pointers.len() == model::POINTERS && cells.len() <= model::MOST_CELLS
}

// Checks an image: its lengths and values, then that every cell in use is visited. Answers how many cells were visited;
// their order and marks are kept.
pub fn check_image(
    pointers: &[u8],
    cells: &[u8],
    order: &mut [u8],
    seen: &mut [u8],
) -> Result<usize, Reason>
    requires { (length order.old ≡ most_cells) × (seen.old ≡ replicate most_cells 0) }
    ensures { ImageChecked pointers.now cells.now
        order.new seen.new result }
{
    if !lengths_ok(pointers, cells) {
        return Err(Reason::Image);
    }
    if !closed_image::is_closed(pointers, cells) {
        return Err(Reason::Image);
    }
    let n = visit::visit(pointers, cells, order, seen);
    if !visit::nothing_lost(cells, &seen[..]) {
        return Err(Reason::LostCell);
    }
    Ok(n)
}

// Whether rec is a record that keeps the layout of a shape.
fn is_shape(rec: &[u8]) -> bool
    ensures { result ≡ eqb (length rec.now) record_size && layout_h rec.now }
{
    rec.len() == model::RECORD && layout::layout_ok(rec)
}

// What fails of an unfolding: the lengths of pointers and cells, then the record, then the counters.
pub fn unfold_refusal(
    rec: &[u8],
    counters: &[u32],
    pointers: usize,
    cells: usize,
) -> Result<(), Reason>
    ensures { Tells (checks_unfold rec.now counters.now pointers cells) (failed_in result) }
{
    if pointers != model::POINTERS {
        return Err(Reason::Image);
    }
    if model::MOST_CELLS < cells {
        return Err(Reason::Image);
    }
    if !is_shape(rec) {
        return Err(Reason::ShapeLayout);
    }
    layout::shape_failure(rec)?;
    let k = rec[3] as usize;
    if !counters::counters_fit(k, counters, cells) {
        return Err(Reason::Counters);
    }
    Ok(())
}

// The refusal of a step by its image and its record; 16 comes after these.
pub fn step_refusal(rec: &[u8], pointers: &[u8], cells: &[u8]) -> Result<(), Reason>
    ensures { failed_in result
        ≡ failing (first_failed (checks_statement rec.now pointers.now cells.now)) 0 }
{
    let mut order = [0u8; model::MOST_CELLS];
    let mut seen = [0u8; model::MOST_CELLS];
    check_image(pointers, cells, &mut order, &mut seen)?;
    if rec.len() != model::RECORD {
        return Err(Reason::RecordKind);
    }
    if rec[0] != b'S' {
        return Err(Reason::RecordKind);
    }
    layout::statement_refusal(rec, model::MOST_STATEMENTS)
}

// Whether the pick at choose is 0 or 1, and the cell at new is one of the image that is not in use.
pub fn entry_ok(op: Op, pick: u8, cell: usize, cells: &[u8]) -> bool
    ensures { EntryChecked (op_number op) pick cell cells.now result }
{
    match op {
        Op::Choose => pick <= 1,
        Op::New => cell < cells.len() && cells[cell] == model::UNUSED,
        _ => true,
    }
}
