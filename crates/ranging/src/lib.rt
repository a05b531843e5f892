// Counters known only within ranges: whether some start within them follows a path, and within which ranges the final
// counters are.
#![tactic(auto)]

ghost use Rattle.std.specs.Prelude.{◌≡◌, map, ◌+◌, ◌≤◌, get_or};
ghost use Rattle.model.specs.Base.{most_nodes, numbers};
ghost use Rattle.model.specs.Ranges.{along, askable, ranged_in, ranged_of, ranged_to, ranging, start_box};
ghost use Rattle.model.specs.Records.{filled};
ghost use Rattle.model.specs.Runs.{nodes_at};
ghost use Rattle.model.specs.Structs.{tables_lent};
ghost use Rattle.ranging.specs.Follow.{FollowReady, IsFollowed};

use edge_layout::nodes_at;
use model::{MOST_MOVES, MOST_NODES, RangeRefusal, Ranged, Tables, record_at};
use range_checks::{first_wrong, given, go_along};
use range_edge::{Ranges, follow_one};
use table_layout::tables_keep;

// The given ends of k ranges, from a place on; 0 past them.
fn read_ends(ranges: &[u32], from: usize, k: usize) -> [u32; 12]
    requires { (k ≤ most_nodes) × (from ≤ most_nodes) }
    ensures { result ≡ filled most_nodes (map (λ i. get_or ranges.now (from + i) 0) (numbers 0 k)) }
{
    let mut ends = [0u32; 12];
    for i in 0..k {
        ends[i] = given(ranges, from + i);
    }
    ends
}

// Follows a path that leads on, from ranges that are some: the final ranges, or the first position of the path where no
// start goes on.
fn follow(tables: Tables, start: usize, ranges: &[u32], path: &[u32]) -> Result<Ranges, usize>
    requires { FollowReady (tables_lent tables) start ranges.now path.now }
    ensures { let t = tables_lent tables.entry in
        IsFollowed (along t 0 start (start_box (nodes_at t start) ranges.now) path.now) result }
{
    let k = nodes_at(tables.locations, start) as usize;
    let mut left = Ranges {
        lows: read_ends(ranges, 0, k),
        highs: read_ends(ranges, MOST_NODES, k),
    };
    for (i, edge) in path.iter().enumerate() {
        let rec = record_at(tables.edges, *edge as usize);
        follow_one(rec, tables.locations, &mut left).ok_or(i)?;
    }
    Ok(left)
}

// Whether there is something to follow: tables that keep the layout, a start in them and a path that is not too long.
fn is_askable(tables: Tables, start: usize, path: &[u32]) -> bool
    ensures { result ≡ askable (tables_lent tables.entry) start path.now }
{
    tables_keep(tables) && (start < tables.counts.locations) & (path.len() <= MOST_MOVES)
}

// Whether some start within the ranges follows the path, and the ranges of its final counters.
pub fn follow_ranges(
    tables: Tables,
    start: usize,
    ranges: &[u32],
    path: &[u32],
) -> Result<Ranged, RangeRefusal>
    ensures { let o = ranging (tables_lent tables.entry) start ranges.now path.now in
        (result ≡ ranged_of o) × (ranged_in result ≡ ranged_to o) }
{
    if !is_askable(tables, start, path) {
        return Err(RangeRefusal::Path { position: 0 });
    }
    let location = go_along(tables, start, path)?;
    let k = nodes_at(tables.locations, start) as usize;
    if let Some(counter) = first_wrong(ranges, k) {
        return Err(RangeRefusal::Range { counter });
    }
    match follow(tables, start, ranges, path) {
        Ok(left) => {
            let lows = left.lows;
            let highs = left.highs;
            Ok(Ranged::Reached {
                location,
                lows,
                highs,
            })
        }
        Err(position) => Ok(Ranged::Stuck { position }),
    }
}
