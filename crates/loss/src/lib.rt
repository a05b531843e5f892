// Leaks that are seen in a location's record, before the statement is run: a third of the edges of large listings are
// such.
#![tactic(auto)]

ghost use Rattle.std.specs.Prelude.{◌+◌, ◌≤◌, ◌<◌, true, ◌≡◌, length, Some};
ghost use Rattle.model.specs.Codes.{op_number};
ghost use Rattle.model.specs.Base.{most_nodes, record_size, pointer_count};
ghost use Rattle.model.specs.Records.{byte};
ghost use Rattle.loss.specs.Loss.{AloneHolds, Leaks, LossReady, Overwrites, StandsOnce};

use model::{Decoded, Node, Op, Pointer};
use way::Way;

// Whether the way splits the node that pointer u holds.
fn splits_at(location: &[u8], u: Pointer, way: Way) -> bool
    requires { (length location.now ≡ record_size) × (u.0 < pointer_count) }
    ensures { result ≡ true → way.split ≡ Some (record { 0 = byte location.now (u.0 + 4) }) }
{
    let at = u.0 as usize + 4;
    way.split == Some(Node(location[at]))
}

// Whether the byte at pointer u's place stands at no other place of the six pointers and the nodes' successors.
// All places are looked at: a count has no branch to guess, and one in a byte is quicker than `filter` and `count`.
fn stands_once(location: &[u8], u: Pointer) -> bool
    requires { (length location.now ≡ record_size) × (u.0 < pointer_count) × (byte location.now 3 ≤ most_nodes) }
    ensures { result ≡ true → StandsOnce location.now (u.0 + 4) }
{
    let at = u.0 as usize + 4;
    let end = location[3] as usize + 10;
    let held = location[at];
    let mut count: u8 = 0;
    for b in &location[4..end] {
        if *b == held {
            count += 1;
        }
    }
    count == 1
}

// Whether the op puts another value into pointer u, and collects nothing: not so where it copies u to itself, or reads
// through a pointer that holds no node, or is a drop.
fn overwrites(location: &[u8], op: Op, u: Pointer, w: Pointer) -> bool
    requires { (length location.now ≡ record_size) × (w.0 < pointer_count) }
    ensures { result ≡ true → Overwrites location.now (op_number op) u.0 w.0 }
{
    match op {
        Op::Copy => u != w,
        Op::Load => {
            let at = w.0 as usize + 4;
            location[at] < location[3]
        }
        Op::LetGo => false,
        _ => true,
    }
}

// Whether pointer u alone holds a node.
fn alone_holds(location: &[u8], u: Pointer) -> bool
    requires { (length location.now ≡ record_size) × (u.0 < pointer_count) × (byte location.now 3 ≤ most_nodes) }
    ensures { result ≡ true → AloneHolds location.now u.0 }
{
    let at = u.0 as usize + 4;
    location[at] < location[3] && stands_once(location, u)
}

// Whether the run by the way is seen to be a leak before it is made: the tail of a split goes with its head's next, or
// a node goes with the only pointer that holds it.
pub fn surely_lost(location: &[u8], d: Decoded, way: Way) -> bool
    requires { LossReady location.now d way }
    ensures { result ≡ true → Leaks location.now d way }
{
    if statement::cuts_next(d.op) {
        splits_at(location, d.u, way)
    } else {
        overwrites(location, d.op, d.u, d.w) && alone_holds(location, d.u)
    }
}
