// Bytes of a lent part: one value for all, or a copy over the first.
#![tactic(auto)]

ghost use Rattle.std.specs.Prelude.{◌≡◌, ◌++◌, ◌≤◌, drop, length, replicate, take};

// The library's `fill`, where a table is cleared: under a name of its own, since wrong versions of that are tried here
// (must-fail/).
pub fn fill(part: &mut [u8], value: u8)
    ensures { part.new ≡ replicate (length part.old) value }
{
    part.fill(value);
}

// Copies bytes over the first of a part, and answers how many.
pub fn copy(from: &[u8], to: &mut [u8]) -> usize
    requires { length from.now ≤ length to.old }
    ensures { (result ≡ length from.now)
        × (to.new ≡ take (length from.now) from.now ++ drop (length from.now) to.old) }
{
    let n = from.len();
    to[..n].copy_from_slice(from);
    n
}
