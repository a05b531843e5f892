// What is asked about ranges and a path: whether each range is one, and how far the path's edges lead on.
#![tactic(auto)]

ghost use Rattle.std.specs.Prelude.{◌≡◌, ◌&&◌, ◌+◌, ◌*◌, ◌<◌, ◌≤◌, MatchOption, MatchResult, eqb, leb, ltb, get_or, length};
ghost use Rattle.model.specs.Base.{most_nodes, record_size};
ghost use Rattle.model.specs.Ranges.{first_wrong, in_limits, led_to, linked, linked_part, reached};
ghost use Rattle.model.specs.Structs.{tables_lent};
ghost use Rattle.model.specs.declared.codes.RangeRefusal.TheVariants.{Path};

use model::{MOST_NODES, RangeRefusal, Tables, record_at};

// The number at a place of the ranges that are given, 0 where there is none.
pub fn given(ranges: &[u32], i: usize) -> u32
    ensures { result ≡ get_or ranges.now i 0 }
{
    ranges.get(i).copied().unwrap_or(0)
}

// Whether a range has its ends within 1 to 65,535, in their order.
fn range_keeps(low: u32, high: u32) -> bool
    ensures { result ≡ in_limits low && in_limits high && leb low high }
{
    ((1 <= low) & (low <= 0xffff)) & ((1 <= high) & (high <= 0xffff)) & (low <= high)
}

// The first of k counters with a range that is none.
pub fn first_wrong(ranges: &[u32], k: usize) -> Option<usize>
    requires { k ≤ most_nodes }
    ensures { MatchOption result (first_wrong k ranges.now ≡ k)
        (λ i. (i < k) × (first_wrong k ranges.now ≡ i)) }
{
    (0..k).find(|i| !range_keeps(given(ranges, *i), given(ranges, MOST_NODES + *i)))
}

// Whether an edge is in the table and leaves a location.
fn is_linked(tables: Tables, location: usize, n: usize) -> bool
    requires { record_size * tables.counts.edges ≤ length tables.edges.now }
    ensures { result ≡ linked (tables_lent tables.entry) location n }
{
    n < tables.counts.edges && word::two(record_at(tables.edges, n), 2) as usize == location
}

// Goes along a path, guards aside, to the location reached; or the refusal at the first edge that does not lead on.
pub fn go_along(tables: Tables, start: usize, path: &[u32]) -> Result<usize, RangeRefusal>
    requires { record_size * tables.counts.edges ≤ length tables.edges.now }
    ensures { let part = linked_part (tables_lent tables.entry) start path.now in
        MatchResult result
        (λ l. (part ≡ length path.now) × (l ≡ reached (tables_lent tables.entry) start path.now))
        (λ r. (part < length path.now) × (r ≡ Path part)) }
{
    let mut location = start;
    for (position, edge) in path.iter().enumerate() {
        let n = *edge as usize;
        if !is_linked(tables, location, n) {
            return Err(RangeRefusal::Path { position });
        }
        location = word::two(record_at(tables.edges, n), 4) as usize;
    }
    Ok(location)
}
