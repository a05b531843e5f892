// Lost cells collected: by the marks of a visit, so that nothing is walked a second time.
#![tactic(auto)]

ghost use Rattle.std.specs.Prelude.{◌≡◌, ◌≤◌, length};
ghost use Rattle.collection.specs.Left.{left_byte, left_bytes};

// What the byte b of a cell becomes: a cell without a mark is no longer in use.
fn left_byte(mark: u8, b: u8) -> u8
    ensures { result ≡ left_byte mark b }
{
    if mark == 0 { model::UNUSED } else { b }
}

// Every cell without a mark goes.
pub fn collect(cells: &mut [u8], seen: &[u8])
    requires { length cells.old ≤ length seen.now }
    ensures { cells.new ≡ left_bytes seen.now 0 cells.old }
{
    for (i, cell) in cells.iter_mut().enumerate() {
        *cell = left_byte(seen[i], *cell);
    }
}
