// The ways out of a location: what its statement looks at, which ways there are, and its shape opened for one of them.
#![tactic(auto)]

ghost use Rattle.std.specs.Prelude.{ℕ, ◌≤◌, ◌<◌, List, ◌≡◌, length, take, drop, Some, None};
ghost use Rattle.model.specs.Base.{most_nodes, pointer_count};
ghost use Rattle.model.specs.Codes.{op_number};
ghost use Rattle.model.specs.Edges.{one_node, two_nodes, view, view_pair, view_val};
ghost use Rattle.model.specs.Heap.{Heap, ptr};
ghost use Rattle.model.specs.Image.{heap_of};
ghost use Rattle.model.specs.Machine.{action, kind};
ghost use Rattle.model.specs.Records.{byte, op_count, op_of, shape_of, val_of};
ghost use Rattle.model.specs.Structs.{DecodedOk, code_in, op_in};
ghost use Rattle.model.specs.declared.Node.{Node};
ghost use Rattle.way.specs.Way.{IsWay, OpenReady, opened_bytes, opened_count, opened_heap, view_in, way_number};

use model::{Decoded, Guard, Guards, Node, Op, Pointer};

// What a statement looks at.
#[derive(Clone, Copy)]
pub enum Looked {
    Nothing,
    One(Node),
    Two(Node, Node),
}

// A way out of a location: split at a node, or whole with a pick; and its guards.
#[derive(Clone, Copy)]
pub struct Way {
    pub split: Option<Node>,
    pub pick: u8,
    pub guards: Guards,
}

// The value that pointer u holds.
fn held_by(u: Pointer, pointers: &[u8]) -> u8
    requires { u.0 < length pointers.now }
    ensures { (cs : List ℕ) → val_of result ≡ ptr (heap_of pointers.now cs) u.0 }
{
    let i = u.0 as usize;
    pointers[i]
}

// A value is looked at where it is a node.
fn one(a: u8) -> Looked
    ensures { view_in result ≡ view_val (val_of a) }
{
    if a < model::NULL {
        Looked::One(Node(a))
    } else {
        Looked::Nothing
    }
}

// Two values are looked at where they are different nodes, else none.
fn both(a: u8, b: u8) -> Looked
    ensures { view_in result ≡ view_pair (val_of a) (val_of b) }
{
    if (a < model::NULL) & (b < model::NULL) & (a != b) {
        Looked::Two(Node(a), Node(b))
    } else {
        Looked::Nothing
    }
}

// What a statement looks at: a relink at what u and w hold, any other at the value through which it reads, writes or
// frees, if it does so.
pub fn view(d: Decoded, pointers: &[u8]) -> Looked
    requires { DecodedOk d × (length pointers.now ≡ pointer_count) }
    ensures { (cs : List ℕ) → view_in result ≡ view (action (op_in d)) (heap_of pointers.now cs) }
{
    match d.op {
        Op::Load => one(held_by(d.w, pointers)),
        Op::Clear | Op::Store | Op::Free => one(held_by(d.u, pointers)),
        Op::Relink => both(held_by(d.u, pointers), held_by(d.w, pointers)),
        _ => Looked::Nothing,
    }
}

// How many ways lead out of a location whose statement has the op and looks at v: three for two nodes; counter = 1 and
// counter at least 2 for one; two picks for a choice, none for a stop, else one.
pub fn way_count(op: Op, v: Looked) -> u8
    requires { op_number op < op_count }
    ensures { (u w : ℕ) (h : Heap) → result ≡ way_number (kind (op_of (op_number op) u w)) (view_in v) h }
{
    if op == Op::Stop {
        return 0;
    }
    match v {
        Looked::Two(_, _) => 3,
        Looked::One(_) => 2,
        Looked::Nothing => if op == Op::Choose { 2 } else { 1 },
    }
}

// Two guards: a test of 0 is no guard, and its node is then 0.
fn guards_on(a: u8, n: Node, b: u8, m: Node) -> Guards
    ensures { (code_in result.first ≡ record { test = a; node = n.0 })
        × (code_in result.second ≡ record { test = b; node = m.0 }) }
{
    Guards {
        first: Guard { test: a, node: n },
        second: Guard { test: b, node: m },
    }
}

// A way on which nothing is split.
fn whole(pick: u8, guards: Guards) -> Way
    ensures { result ≡ record { split = None; pick = pick; guards = guards } }
{
    Way {
        split: None,
        pick,
        guards,
    }
}

// A way on which the head of a node is split off.
fn split(node: Node, guards: Guards) -> Way
    ensures { result ≡ record { split = Some node; pick = 0; guards = guards } }
{
    Way {
        split: Some(node),
        pick: 0,
        guards,
    }
}

// Way j through one node: nothing split, then its head split off.
fn single_way(v: Node, j: u8) -> Way
    ensures { IsWay (one_node v.0) j result }
{
    match j {
        0 => whole(0, guards_on(1, v, 0, Node(0))),
        _ => split(v, guards_on(2, v, 0, Node(0))),
    }
}

// Way j through two nodes: nothing split; the second's head split off; the first's head split off, whatever the
// counter of the second.
fn double_way(n: Node, m: Node, j: u8) -> Way
    ensures { IsWay (two_nodes n.0 m.0) j result }
{
    match j {
        0 => whole(0, guards_on(1, n, 1, m)),
        1 => split(m, guards_on(1, n, 2, m)),
        _ => split(n, guards_on(2, n, 0, Node(0))),
    }
}

// Way j of a statement that looks at v; through no node it is the way by pick j.
pub fn way_at(v: Looked, j: u8) -> Way
    ensures { IsWay (view_in v) j result }
{
    match v {
        Looked::Nothing => whole(j, guards_on(0, Node(0), 0, Node(0))),
        Looked::One(n) => single_way(n, j),
        Looked::Two(n, m) => double_way(n, m, j),
    }
}

// Opens k cells: for a split the tail, cell k, takes over the node's successor and follows the node; for new, cell k
// is not in use.
fn open_cells(cells: &mut [u8], k: usize, op: Op, split: Option<Node>) -> usize
    requires { (k ≤ most_nodes) × (13 ≤ length cells.old) × ((n : Node) → split ≡ Some n → n.0 < k) }
    ensures count { result ≡ opened_count split (op_number op) k }
    ensures bytes { take result cells.new ≡ opened_bytes split (op_number op) (take k cells.old) }
{
    if let Some(node) = split {
        let n = node.0 as usize;
        cells[k] = cells[n];
        cells[n] = k as u8;
        return k + 1;
    }
    if op == Op::New {
        cells[k] = model::UNUSED;
        return k + 1;
    }
    k
}

// Writes the heap that the statement op is run on by the way, from the shape in rec, and answers its number of cells.
pub fn open_way(rec: &[u8], op: Op, way: Way, pointers: &mut [u8], cells: &mut [u8]) -> usize
    requires { OpenReady rec.now pointers.old cells.old way.split }
    ensures pointers { pointers.new ≡ take 6 (drop 4 rec.now) }
    ensures count { result ≡ opened_count way.split (op_number op) (byte rec.now 3) }
    ensures few { result ≤ 13 }
    ensures heap { heap_of pointers.new (take result cells.new)
        ≡ opened_heap way.split (op_number op) (shape_of rec.now) }
{
    let k = rec[3] as usize;
    pointers.copy_from_slice(&rec[4..10]);
    // all twelve successors, of which the first k count: a copy of one length is quicker
    cells[..12].copy_from_slice(&rec[10..22]);
    open_cells(cells, k, op, way.split)
}
