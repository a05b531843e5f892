// The test of a shape: the first node of a heap image that is not reachable, that is not core, or that the walks
// number otherwise.
#![tactic(auto)]

ghost use Rattle.std.specs.Prelude.{◌≡◌, true, not, ◌≤◌, length, eqb, ltb, position, ◌<◌, IfSome};
ghost use Rattle.std.specs.List.{enumerate_from};
ghost use Rattle.model.specs.Base.{most_nodes};
ghost use Rattle.model.specs.Heap.{closed};
ghost use Rattle.model.specs.Image.{heap_of};
ghost use Rattle.model.specs.Records.{checks_nodes};
ghost use Rattle.model.specs.Structs.{Tells, failed_in};

use model::{Node, Reason};

// The first mark below a bound.
fn first_below(marks: &[u8], bound: u8) -> Option<usize>
    ensures { result ≡ position (λ mark. ltb mark bound) marks.now }
{
    marks.iter().position(|mark| *mark < bound)
}

// The first place in the order that holds another cell.
fn first_moved(order: &[u8]) -> Option<usize>
    ensures first { result ≡ position (λ v. not (eqb v.1 v.0)) (enumerate_from 0 order.now) }
    ensures within { IfSome result (λ c. c < length order.now) }
{
    order
        .iter()
        .enumerate()
        .position(|(c, visited)| *visited as usize != c)
}

// The first check of the nodes that fails, with the first node concerned. A visit marks the cells that it sees, the
// core ones with two or more.
pub fn node_failure(pointers: &[u8], cells: &[u8]) -> Result<(), Reason>
    requires { (closed (heap_of pointers.now cells.now) ≡ true) × (length cells.now ≤ most_nodes) }
    ensures { Tells (checks_nodes (heap_of pointers.now cells.now)) (failed_in result) }
{
    let mut order = [0u8; 16];
    let mut seen = [0u8; 16];
    visit::visit(pointers, cells, &mut order, &mut seen);
    let order = &order[..cells.len()];
    let marks = &seen[..cells.len()];
    if let Some(lost) = first_below(marks, 1) {
        return Err(Reason::UnreachableNode(Node(lost as u8)));
    }
    if let Some(inner) = first_below(marks, 2) {
        return Err(Reason::NodeNotCore(Node(inner as u8)));
    }
    if let Some(moved) = first_moved(order) {
        return Err(Reason::NodeOrder(Node(moved as u8)));
    }
    Ok(())
}
