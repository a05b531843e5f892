// The values of a heap image in terms of nodes: the bytes of the folded shape.
#![tactic(auto)]

ghost use Rattle.std.specs.Prelude.{◌≡◌, ℕ, List, ◌++◌, map, ◌+◌, ◌<◌, ◌≤◌, length, get_or, drop};
ghost use Rattle.std.specs.List.{AllZip};
ghost use Rattle.model.specs.Base.{pointer_count};
ghost use Rattle.word.specs.Words.{number_of};
ghost use Rattle.folding.specs.Fold.{fold_byte, folded_bytes, AllIn, FoldReady, InTable, LastsIn};

// A byte in terms of nodes: a cell becomes its node.
pub fn fold_byte(b: u8, node: &[u8]) -> u8
    requires { b < 0xfd → b < length node.now }
    ensures { result ≡ fold_byte node.now b }
{
    if b < model::UNUSED {
        node[b as usize]
    } else {
        b
    }
}

// What is found at each of the places, in terms of nodes, over the front of a slice.
fn fold_each<F: Fn(u8) -> u8>(places: &[u8], byte: F, node: &[u8], to: &mut [u8])
    requires room { length places.now ≤ length to.old }
    requires asked { (i : ℕ) → i < length places.now → F.pre byte (get_or places.now i 0) }
    requires within { (i b : ℕ) → i < length places.now → F.post byte (get_or places.now i 0) b → InTable node.now b }
    ensures { (bs : List ℕ) × AllZip (λ x b. F.post byte x b) places.now bs
        × (to.new ≡ map (fold_byte node.now) bs ++ drop (length places.now) to.old) }
{
    for (i, x) in places.iter().enumerate() {
        to[i] = fold_byte(byte(*x), node);
    }
}

// The values, each in terms of nodes.
pub fn fold_values(values: &[u8], node: &[u8], to: &mut [u8])
    requires { (length values.now ≤ length to.old) × AllIn node.now values.now }
    ensures { to.new ≡ map (fold_byte node.now) values.now
        ++ drop (length values.now) to.old }
{
    fold_each(values, |b| b, node, to);
}

// What the cells `last` hold, in terms of nodes.
pub fn fold_successors(cells: &[u8], last: &[u8], node: &[u8], to: &mut [u8])
    requires { (length last.now ≤ length to.old) × LastsIn node.now cells.now last.now }
    ensures { to.new
        ≡ map (λ c. fold_byte node.now (get_or cells.now c 0)) last.now
        ++ drop (length last.now) to.old }
{
    fold_each(last, |c| cells[c as usize], node, to);
}

// The bytes of a shape: the six pointers, then what the last cells of the segments hold, in terms of nodes.
pub fn fold_shape(pointers: &[u8], cells: &[u8], last: &[u8], node: &[u8], shape: &mut [u8])
    requires { FoldReady pointers.now cells.now last.now node.now shape.old }
    ensures { shape.new
        ≡ folded_bytes node.now pointers.now cells.now last.now
        ++ drop (pointer_count + length last.now) shape.old }
{
    fold_values(pointers, node, shape);
    fold_successors(cells, last, node, &mut shape[6..]);
}

// ---- the same as numbers, a byte for each value, the first lowest: what is read as words soon after is written so

// What is found at each of the places, in terms of nodes. From the last on: each goes below those behind it.
fn code_each<F: Fn(u8) -> u8>(places: &[u8], byte: F, node: &[u8]) -> u64
    requires few { length places.now ≤ 6 }
    requires asked { (i : ℕ) → i < length places.now → F.pre byte (get_or places.now i 0) }
    requires within { (i b : ℕ) → i < length places.now → F.post byte (get_or places.now i 0) b → InTable node.now b }
    ensures { (bs : List ℕ) × AllZip (λ x b. F.post byte x b) places.now bs
        × (result ≡ number_of (map (fold_byte node.now) bs)) × (result < 0x1_0000_0000_0000) }
{
    let mut code: u64 = 0;
    for i in (0..places.len()).rev() {
        code = code * 256 + fold_byte(byte(places[i]), node) as u64;
    }
    code
}

// The values, each in terms of nodes.
pub fn code_values(values: &[u8], node: &[u8]) -> u64
    requires { (length values.now ≤ 6) × AllIn node.now values.now }
    ensures { (result ≡ number_of (map (fold_byte node.now) values.now))
        × (result < 0x1_0000_0000_0000) }
{
    code_each(values, |b| b, node)
}

// What the cells `last` hold, in terms of nodes.
pub fn code_successors(cells: &[u8], last: &[u8], node: &[u8]) -> u64
    requires { (length last.now ≤ 6) × LastsIn node.now cells.now last.now }
    ensures { (result
        ≡ number_of (map (λ c. fold_byte node.now (get_or cells.now c 0)) last.now))
        × (result < 0x1_0000_0000_0000) }
{
    code_each(last, |c| cells[c as usize], node)
}
