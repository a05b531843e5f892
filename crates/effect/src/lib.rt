// The effect of a statement on a heap image that is lent.
// A fault leaves the image. Nothing is done about lost cells.
#![tactic(auto)]

ghost use Rattle.std.specs.Prelude.{◌≡◌, List, map, set, ℕ, ◌≤◌, ◌<◌, length};
ghost use Rattle.model.specs.Base.{most_cells};
ghost use Rattle.model.specs.Codes.{fault_in};
ghost use Rattle.model.specs.Machine.{effect, free_val};
ghost use Rattle.model.specs.Records.{val_of};
ghost use Rattle.model.specs.Structs.{op_in};
ghost use Rattle.effect.specs.Effect.{EffectReady, Access, Compares, Named, HasEffect, TestFault, TestReady, loaded, relinked, stored, wipe_byte};

use model::{Decoded, Fault, Op, Pointer};

// The cell that is read or written through the value v: a fault where that is null or undefined.
fn cell_at(v: u8) -> Result<usize, Fault>
    ensures { Access v result }
{
    match v {
        model::NULL => Err(Fault::Null),
        model::UNDEFINED => Err(Fault::Undefined),
        _ => Ok(v as usize),
    }
}

// The pointer u holds the value v.
fn set_pointer(u: Pointer, v: u8, pointers: &mut [u8])
    requires { u.0 < length pointers.old }
    ensures { pointers.new ≡ set pointers.old u.0 v }
{
    let i = u.0 as usize;
    pointers[i] = v;
}

// The pointer u holds the successor of the cell that the value v names.
fn load_through(u: Pointer, v: u8, pointers: &mut [u8], cells: &[u8]) -> Result<(), Fault>
    requires { (u.0 < length pointers.old) × Named cells.now v }
    ensures { HasEffect (loaded u.0 (val_of v)) pointers.old cells.now
        (fault_in result) pointers.new cells.now }
{
    let c = cell_at(v)?;
    set_pointer(u, cells[c], pointers);
    Ok(())
}

// The successor of the cell that the value at names becomes the value v.
fn store_through(at: u8, v: u8, cells: &mut [u8]) -> Result<(), Fault>
    requires { Named cells.old at × (v ≡ 0xfd → ⊥) }
    ensures { (ps : List ℕ) → HasEffect (stored (val_of at) (val_of v)) ps cells.old
        (fault_in result) ps cells.new }
{
    let c = cell_at(at)?;
    cells[c] = v;
    Ok(())
}

// The successor of the cell that the value at names becomes that of the cell that the value from names, which is looked
// at first.
fn relink_through(at: u8, from: u8, cells: &mut [u8]) -> Result<(), Fault>
    requires { Named cells.old at × Named cells.old from }
    ensures { (ps : List ℕ) → HasEffect (relinked (val_of at) (val_of from)) ps cells.old
        (fault_in result) ps cells.new }
{
    let c = cell_at(from)?;
    let successor = cells[c];
    store_through(at, successor, cells)
}

// The pointer u holds the cell x, whose successor is undefined.
fn new_cell(u: Pointer, x: usize, pointers: &mut [u8], cells: &mut [u8])
    requires { (u.0 < length pointers.old) × (x < length cells.old) × (length cells.old ≤ most_cells) }
    ensures { (pointers.new ≡ set pointers.old u.0 x) × (cells.new ≡ set cells.old x 0xff) }
{
    cells[x] = model::UNDEFINED;
    set_pointer(u, x as u8, pointers);
}

// All that holds the cell c becomes undefined.
fn wipe_holders(c: u8, list: &mut [u8])
    ensures { list.new ≡ map (wipe_byte c) list.old }
{
    for b in list.iter_mut() {
        *b = if *b == c { model::UNDEFINED } else { *b };
    }
}

// The cell that the value at names is freed; freeing null does nothing.
fn free_at(at: u8, pointers: &mut [u8], cells: &mut [u8]) -> Result<(), Fault>
    requires { Named cells.old at × (length cells.old ≤ most_cells) }
    ensures { HasEffect (free_val (val_of at)) pointers.old cells.old
        (fault_in result) pointers.new cells.new }
{
    if at == model::NULL {
        return Ok(());
    }
    if at == model::UNDEFINED {
        return Err(Fault::Undefined);
    }
    wipe_holders(at, pointers);
    wipe_holders(at, cells);
    let c = at as usize;
    cells[c] = model::UNUSED;
    Ok(())
}

// Comparing two values: a fault where one of them is undefined.
fn compared(a: u8, b: u8) -> Result<(), Fault>
    ensures { Compares (val_of a) (val_of b) (fault_in result) }
{
    if (a == model::UNDEFINED) | (b == model::UNDEFINED) {
        Err(Fault::Undefined)
    } else {
        Ok(())
    }
}

// The fault of a statement that leaves the heap: a test that looks at an undefined pointer has one.
pub fn test_fault(d: Decoded, pointers: &[u8]) -> Result<(), Fault>
    requires { TestReady d pointers.now }
    ensures { TestFault d pointers.now (fault_in result) }
{
    let i = d.u.0 as usize;
    let j = d.w.0 as usize;
    match d.op {
        Op::IsNull => compared(pointers[i], model::NULL),
        Op::Same => compared(pointers[i], pointers[j]),
        _ => Ok(()),
    }
}

// The effect of a statement; x is the cell for new.
pub fn run_effect(d: Decoded, x: usize, pointers: &mut [u8], cells: &mut [u8]) -> Result<(), Fault>
    requires { EffectReady d x pointers.old cells.old }
    ensures { HasEffect (effect (op_in d) x) pointers.old cells.old
        (fault_in result) pointers.new cells.new }
{
    let i = d.u.0 as usize;
    let j = d.w.0 as usize;
    let at = pointers[i];
    let v = pointers[j];
    match d.op {
        Op::SetNull | Op::LetGo => set_pointer(d.u, model::NULL, pointers),
        Op::Copy => set_pointer(d.u, v, pointers),
        Op::Load => load_through(d.u, v, pointers, &cells[..])?,
        Op::Clear => store_through(at, model::NULL, cells)?,
        Op::Store => store_through(at, v, cells)?,
        Op::New => new_cell(d.u, x, pointers, cells),
        Op::Free => free_at(at, pointers, cells)?,
        Op::Relink => relink_through(at, v, cells)?,
        _ => test_fault(d, &pointers[..])?,
    }
    Ok(())
}
