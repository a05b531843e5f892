// The branch that a statement takes, by the bytes of the pointers.
#![tactic(auto)]

ghost use Rattle.std.specs.Prelude.{◌≡◌, List, ℕ, ◌<◌, length};
ghost use Rattle.model.specs.Base.{pointer_count};
ghost use Rattle.model.specs.Codes.{op_number};
ghost use Rattle.model.specs.Heap.{same_val};
ghost use Rattle.model.specs.Machine.{branch, test};
ghost use Rattle.model.specs.Records.{op_count, val_of};
ghost use Rattle.model.specs.Image.{heap_of};
ghost use Rattle.model.specs.Structs.{op_in};

use model::{Decoded, Op};

// The branch of a test: 0 where the two values are equal.
fn test_branch(a: u8, b: u8) -> u8
    ensures { result ≡ test (same_val (val_of a) (val_of b)) }
{
    if a == b { 0 } else { 1 }
}

// The branch that a statement takes; the pick is read by choose only.
pub fn branch_of(d: Decoded, pick: u8, pointers: &[u8]) -> u8
    requires { (op_number d.op < op_count) × (d.u.0 < pointer_count) × (d.w.0 < pointer_count)
        × (length pointers.now ≡ pointer_count) }
    ensures { (cs : List ℕ) → result ≡ branch (op_in d) pick (heap_of pointers.now cs) }
{
    let i = d.u.0 as usize;
    let j = d.w.0 as usize;
    match d.op {
        Op::IsNull => test_branch(pointers[i], model::NULL),
        Op::Same => test_branch(pointers[i], pointers[j]),
        Op::Choose => pick,
        _ => 0,
    }
}
