// One edge followed with ranges: its guards cut them, and its updates move them.
#![tactic(auto)]

ghost use Rattle.std.specs.Prelude.{◌≡◌, ◌<◌, true, false, MatchOption};
ghost use Rattle.model.specs.Base.{most_nodes};
ghost use Rattle.model.specs.Ranges.{cut, high_passed, left_at, low_passed};
ghost use Rattle.model.specs.Structs.{code_in};
ghost use Rattle.range_edge.specs.OneEdge.{EdgeReady, OneFollowed, box_in};

use edge_layout::{guards_of, nodes_at};
use model::Guard;
use moving::replace_counters;

// The lowest and the highest values of twelve counters, 0 past the last.
#[derive(Clone, Copy)]
pub struct Ranges {
    pub lows: [u32; 12],
    pub highs: [u32; 12],
}

// The lowest value of a range that passes a test.
fn low_passed(test: u8, low: u32) -> u32
    ensures { result ≡ low_passed test low }
{
    if test == 2 { low.max(2) } else { low }
}

// The highest value of a range that passes a test.
fn high_passed(test: u8, high: u32) -> u32
    ensures { result ≡ high_passed test high }
{
    if test == 1 { high.min(1) } else { high }
}

// Cuts the range of a guard's node to the values that pass, where there are any.
fn cut(guard: Guard, ranges: &mut Ranges) -> Option<()>
    requires { guard.node.0 < most_nodes }
    ensures left { box_in ranges.new ≡ cut (code_in guard) (box_in ranges.old) }
    ensures some { let b = cut (code_in guard) (box_in ranges.old) in
        MatchOption result (left_at (code_in guard) b ≡ false) (λ _. left_at (code_in guard) b ≡ true) }
{
    let n = guard.node.0 as usize;
    let low = low_passed(guard.test, ranges.lows[n]);
    let high = high_passed(guard.test, ranges.highs[n]);
    ranges.lows[n] = low;
    ranges.highs[n] = high;
    if low <= high { Some(()) } else { None }
}

// One edge: its guards cut the ranges, and its updates move what is left, if some values pass; else the ranges are of
// no more use. They are lent, since twelve lowest and highest values that are handed on for each guard take longer
// than what is done to them.
pub fn follow_one(rec: &[u8], locations: &[u8], ranges: &mut Ranges) -> Option<()>
    requires { EdgeReady rec.now locations.now }
    ensures { OneFollowed rec.now locations.now ranges.old result ranges.new }
{
    let guards = guards_of(rec);
    cut(guards.first, ranges)?;
    cut(guards.second, ranges)?;
    let to = word::two(rec, 4) as usize;
    let nodes = nodes_at(locations, to) as usize;
    // no value passes 32 bits, since a path is short and counters are added once
    let _ = replace_counters(rec, nodes, &mut ranges.lows);
    let _ = replace_counters(rec, nodes, &mut ranges.highs);
    Some(())
}
