// Whether the two tables keep the layout: their counts, their locations, then their edges.
#![tactic(auto)]

ghost use Rattle.std.specs.Prelude.{◌≡◌, ℕ, ◌*◌, ◌<◌, ◌≤◌, length};
ghost use Rattle.model.specs.Base.{all, most_nodes, numbers, record_size};
ghost use Rattle.model.specs.Layout.{edge_keeps_in, keeps_layout, location_keeps};
ghost use Rattle.model.specs.Records.{byte, record_at};
ghost use Rattle.model.specs.Structs.{tables_lent};

use edge_layout::edge_keeps;
use layout::fields::all_zero;
use location_table::in_places;
use model::{MOST_EDGES, MOST_LOCATIONS, Tables, record_at};

// Whether a location's record keeps the layout.
fn location_keeps(rec: &[u8]) -> bool
    requires { length rec.now ≡ record_size }
    ensures { result ≡ location_keeps rec.now }
{
    if (rec[0] != b'L') | (64 <= rec[1]) | (3 < rec[2]) {
        return false;
    }
    if rec[2] == 0 {
        return layout::shape_ok(rec);
    }
    all_zero(&rec[3..])
}

// Whether the first records of the location table keep the layout.
fn locations_keep(locations: &[u8], count: usize) -> bool
    requires { record_size * count ≤ length locations.now }
    ensures { result ≡ all (λ n. location_keeps (record_at locations.now n)) (numbers 0 count) }
{
    (0..count).all(|n| location_keeps(record_at(locations, n)))
}

// Whether the first records of the edge table keep the layout, where those of the location table do.
fn edges_keep(tables: Tables) -> bool
    requires { (record_size * tables.counts.locations ≤ length tables.locations.now)
        × (record_size * tables.counts.edges ≤ length tables.edges.now)
        × ((i : ℕ) → i < tables.counts.locations → byte (record_at tables.locations.now i) 3 ≤ most_nodes) }
    ensures { let t = tables_lent tables.entry in
        result ≡ all (λ n. edge_keeps_in t (record_at t.edge_bytes n)) (numbers 0 t.edge_count) }
{
    (0..tables.counts.edges).all(|n| edge_keeps(tables, record_at(tables.edges, n)))
}

// Whether the two tables keep the layout.
pub fn tables_keep(tables: Tables) -> bool
    ensures { result ≡ keeps_layout (tables_lent tables.entry) }
{
    let counts = tables.counts;
    if !(in_places(MOST_LOCATIONS, counts.locations, tables.locations.len())
        & in_places(MOST_EDGES, counts.edges, tables.edges.len()))
    {
        return false;
    }
    locations_keep(tables.locations, counts.locations) && edges_keep(tables)
}
