// The visit order cut into segments.
#![tactic(auto)]

ghost use Rattle.std.specs.Prelude.{◌≡◌, ◌+◌, ◌-◌, ◌<◌, ◌≤◌, length, get_or, drop};
ghost use Rattle.model.specs.Base.{most_cells};
ghost use Rattle.segment.specs.Cut.{CutReady, Entered, IsCut, Put, PutReady, Within, held_core, inner, named, segs, cut_tables};
ghost use Rattle.segment.specs.Lent.{SameTables, tables_in};

use model::Node;

// The tables that a cut fills: of each cell its segment's number, of each segment its last cell and its size.
#[derive(Drop)]
struct Tables<'a> {
    node: &'a mut [u8],
    last: &'a mut [u8],
    size: &'a mut [u32],
}

// The node of the last of k segments.
fn last_node(k: usize) -> Node
    requires { (0 < k) × (k ≤ most_cells) }
    ensures { result.0 ≡ k - 1 }
{
    Node((k - 1) as u8)
}

impl Tables<'_> {
    // The cell is the last so far of the segment of node n, which has so many cells with it.
    fn enter(&mut self, c: u8, n: Node, count: u32)
        requires { (c < length self.old.node.now) × (n.0 < length self.old.last.now)
            × (n.0 < length self.old.size.now) }
        ensures entered { Entered c n.0 count (tables_in self.old) (tables_in self.new) }
        ensures same { SameTables self.old self.new }
    {
        let j = n.0 as usize;
        self.node[c as usize] = n.0;
        self.last[j] = c;
        self.size[j] = count;
    }

    // One cell more, where k segments have begun: a core cell begins one, any other goes behind the last.
    fn put(&mut self, c: u8, k: usize, held: &[u8]) -> usize
        requires { PutReady c k held.now (tables_in self.old) }
        ensures put { Put (held_core held.now c) c k (tables_in self.old) (tables_in self.new) result }
        ensures same { SameTables self.old self.new }
    {
        if 2 <= held[c as usize] {
            self.enter(c, Node(k as u8), 1);
            return k + 1;
        }
        let n = last_node(k);
        let count = self.size[n.0 as usize] + 1;
        self.enter(c, n, count);
        k
    }
}

// Cuts the order before each core cell. Of each segment it keeps the last cell and the size, of each cell the number
// of its segment, and it answers how many segments there are. Sizes past these stay.
pub fn cut(order: &[u8], held: &[u8], node: &mut [u8], last: &mut [u8], size: &mut [u32]) -> usize
    requires { CutReady order.now held.now (cut_tables node.old last.old size.old) }
    ensures cut { IsCut (segs held.now order.now)
        (cut_tables node.new last.new size.new) result }
    ensures past { drop result size.new ≡ drop result size.old }
{
    let mut tables = Tables { node, last, size };
    let mut k = 0;
    for c in order {
        k = tables.put(*c, k, held);
    }
    k
}

// How many of the cells come before the first core cell, or all: so far goes a segment that begins before them.
fn run_length(cells: &[u8], held: &[u8]) -> usize
    requires { Within cells.now held.now }
    ensures { result ≡ inner held.now cells.now }
{
    cells
        .iter()
        .position(|c| 2 <= held[*c as usize])
        .unwrap_or(cells.len())
}

// Each of the cells gets the node.
fn name_cells(cells: &[u8], n: Node, node: &mut [u8])
    requires { Within cells.now node.old }
    ensures { node.new ≡ named cells.now n.0 node.old }
{
    for c in cells {
        node[*c as usize] = n.0;
    }
}

// What `cut` does, where segments are long: each is entered once, when its end is found, and not with every cell.
pub fn cut_long(
    order: &[u8],
    held: &[u8],
    node: &mut [u8],
    last: &mut [u8],
    size: &mut [u32],
) -> usize
    requires { CutReady order.now held.now (cut_tables node.old last.old size.old) }
    ensures cut { IsCut (segs held.now order.now)
        (cut_tables node.new last.new size.new) result }
    ensures past { drop result size.new ≡ drop result size.old }
{
    let mut k = 0;
    let mut i = 0;
    // counts no index: each turn goes to the end of a segment
    while i < order.len() {
        let next = i + 1;
        let end = next + run_length(&order[next..], held);
        name_cells(&order[i..end], Node(k as u8), node);
        last[k] = order[end - 1];
        size[k] = (end - i) as u32;
        k += 1;
        i = end;
    }
    k
}
