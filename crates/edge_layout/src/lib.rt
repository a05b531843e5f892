// Whether an edge's record keeps the layout: its ends, its bytes, its guards and its updates.
#![tactic(auto)]

ghost use Rattle.std.specs.Prelude.{◌≡◌, true, ℕ, ◌+◌, ◌*◌, ◌<◌, ◌≤◌, length};
ghost use Rattle.model.specs.Base.{most_nodes, record_size};
ghost use Rattle.model.specs.Layout.{edge_keeps, edge_keeps_in, ends_keep};
ghost use Rattle.model.specs.Records.{byte, record_at};
ghost use Rattle.model.specs.Runs.{guards_of};
ghost use Rattle.model.specs.Structs.{tables_lent};
ghost use Rattle.update_layout.specs.Kept.{codes_in};

use layout::fields::all_zero;
use model::{Guard, Guards, Node, Tables, record_at};
use update_layout::{guard_keeps, updates_keep};

// The guards that an edge's record holds.
pub fn guards_of(rec: &[u8]) -> Guards
    requires { length rec.now ≡ record_size }
    ensures { codes_in result ≡ guards_of rec.now }
{
    let b = rec[1];
    Guards {
        first: Guard {
            test: rec[6],
            node: Node(rec[7]),
        },
        second: Guard {
            test: b / 2 % 4,
            node: Node(b / 8 % 16),
        },
    }
}

// How many nodes a location has.
pub fn nodes_at(locations: &[u8], number: usize) -> u8
    requires { record_size * number + record_size ≤ length locations.now }
    ensures { result ≡ byte (record_at locations.now number) 3 }
{
    record_at(locations, number)[3]
}

// Whether a record whose ends are locations keeps the layout, where these have so many nodes.
fn fields_keep(rec: &[u8], nodes: u8, new: u8) -> bool
    requires { (length rec.now ≡ record_size) × (nodes ≤ most_nodes) × (new ≤ most_nodes) }
    ensures { (n : ℕ) → ends_keep n rec.now ≡ true
        → result ≡ edge_keeps n nodes new rec.now }
{
    if (rec[0] != b'E') | (0x80 <= rec[1]) {
        return false;
    }
    let guards = guards_of(rec);
    let first = guards.first;
    let second = guards.second;
    if !(guard_keeps(first, nodes) & guard_keeps(second, nodes)) {
        return false;
    }
    let k = new as usize;
    let end = 8 + 2 * k;
    updates_keep(rec, nodes, k, guards) & all_zero(&rec[end..])
}

// Whether an edge's record keeps the layout in tables whose locations have at most 12 nodes.
pub fn edge_keeps(tables: Tables, rec: &[u8]) -> bool
    requires { (length rec.now ≡ record_size) × (record_size * tables.counts.locations ≤ length tables.locations.now)
        × ((i : ℕ) → i < tables.counts.locations → byte (record_at tables.locations.now i) 3 ≤ most_nodes) }
    ensures { result ≡ edge_keeps_in (tables_lent tables.entry) rec.now }
{
    let from = word::two(rec, 2) as usize;
    let to = word::two(rec, 4) as usize;
    let count = tables.counts.locations;
    if (count <= from) | (count <= to) {
        return false;
    }
    fields_keep(
        rec,
        nodes_at(tables.locations, from),
        nodes_at(tables.locations, to),
    )
}
