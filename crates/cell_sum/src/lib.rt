// The updates of a run, summed up cell by cell: the code of each node's update from the cells of an opened shape.
#![tactic(auto)]

ghost use Rattle.std.specs.Prelude.{◌≡◌, ℕ, ◌+◌, ◌≤◌, ◌<◌, length, get_or, set};
ghost use Rattle.model.specs.Base.{most_nodes};
ghost use Rattle.model.specs.declared.Node.{Node};
ghost use Rattle.cell_sum.specs.Codes.{CellsReady, base_at, code_at, plus_in, sum_at};

use model::Node;

// What the cells of an opened shape stand for: the number of old nodes, and the node that is split, if one is, into its
// head and the tail, a cell past the nodes.
#[derive(Clone, Copy)]
pub struct Weights {
    pub nodes: usize,
    pub split: Option<Node>,
}

// What cell c adds to the code of its update: one to the constant for the head or a new cell; else the flag of the
// node it is of.
fn cell_plus(c: u8, weights: Weights) -> u16
    requires { (c ≤ weights.nodes) × (weights.nodes ≤ most_nodes)
        × ((n : Node) → weights.split ≡ Some n → n.0 < weights.nodes) }
    ensures { (result ≡ plus_in weights c) × (result ≤ 4096) }
{
    let last = weights.nodes as u8;
    match weights.split {
        Some(node) if c == node.0 => 4096,
        Some(node) if c == last => update::flag(node),
        None if c == last => 4096,
        _ => update::flag(Node(c)),
    }
}

// The new node of cell c, from the list of the cells' nodes.
fn node_of(node: &[u8], c: usize) -> Node
    requires { c < length node.now }
    ensures { result.0 ≡ get_or node.now c 0 }
{
    Node(node[c])
}

// Adds to the code of node n's update.
fn add_code(updates: &mut [u16], n: Node, plus: u16)
    requires { (n.0 < length updates.old) × (get_or updates.old n.0 0 + plus < 65536) }
    ensures { updates.new ≡ set updates.old n.0
        (get_or updates.old n.0 0 + plus) }
{
    let j = n.0 as usize;
    updates[j] += plus;
}

// The code of each node before its cells are added: the constant is 0, but -1 for the node that has the tail.
fn write_bases(node: &[u8], weights: Weights, updates: &mut [u16])
    requires { (n : Node) → weights.split ≡ Some n
        → (weights.nodes < length node.now) × (get_or node.now weights.nodes 0 < length updates.old) }
    ensures { (j : ℕ) → j < length updates.old
        → get_or updates.new j 0 ≡ base_at weights.split (get_or node.now weights.nodes 0) j }
{
    updates.fill(4096);
    if weights.split.is_some() {
        update::set_code(updates, node_of(node, weights.nodes), 0);
    }
}

// Adds to the code of each node what its cells add.
fn add_cells(cells: &[u8], node: &[u8], weights: Weights, updates: &mut [u16])
    requires ready { (length cells.now ≤ 13) × CellsReady cells.now node.now weights (length updates.old) }
    requires small { (j : ℕ) → j < length updates.old → get_or updates.old j 0 ≤ 4096 }
    ensures { (j : ℕ) → j < length updates.old → get_or updates.new j 0
        ≡ get_or updates.old j 0 + sum_at node.now (plus_in weights) j cells.now }
{
    for c in cells {
        let n = node_of(node, *c as usize);
        let plus = cell_plus(*c, weights);
        add_code(updates, n, plus);
    }
}

// Writes the code of each node's update, from the cells given and the new node of each.
pub fn sum_cells(cells: &[u8], node: &[u8], weights: Weights, updates: &mut [u16])
    requires { (length cells.now ≤ 13) × CellsReady cells.now node.now weights (length updates.old) }
    ensures { (j : ℕ) → j < length updates.old
        → get_or updates.new j 0 ≡ code_at node.now weights cells.now j }
{
    write_bases(node, weights, updates);
    add_cells(cells, node, weights, updates);
}
