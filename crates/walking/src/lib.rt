// Moves and walks along the edges of an automaton, by value: what is asked of the tables and of the configuration is
// looked at once, and then the moves are made.
#![tactic(auto)]

ghost use Rattle.std.specs.Prelude.{◌≡◌, true};
ghost use Rattle.model.specs.Layout.{keeps_layout};
ghost use Rattle.model.specs.Structs.{tables_lent};
ghost use Rattle.model.specs.Walking.{configuration_keeps, keeps, moved, moved_of, moves_along, walked, walked_of};

use counters::counters_of;
use edge_layout::nodes_at;
use model::{Configuration, MOST_MOVES, MoveRefusal, Tables, Walked};
use moving::take_edge;
use table_layout::tables_keep;

// Whether a configuration keeps the layout, where the tables do.
fn configuration_keeps(tables: Tables, configuration: Configuration) -> bool
    requires { keeps_layout (tables_lent tables) ≡ true }
    ensures { result ≡ configuration_keeps (tables_lent tables.entry) configuration }
{
    let at = configuration.location as usize;
    if tables.counts.locations <= at {
        return false;
    }
    counters_of(
        nodes_at(tables.locations, at) as usize,
        &configuration.counters,
    )
}

// Whether the tables and the configuration keep the layout.
fn keeps(tables: Tables, configuration: Configuration) -> bool
    ensures { result ≡ keeps (tables_lent tables.entry) configuration }
{
    tables_keep(tables) && configuration_keeps(tables, configuration)
}

// What a move gives.
pub fn make_move(
    configuration: Configuration,
    tables: Tables,
    number: usize,
) -> Result<Configuration, MoveRefusal>
    ensures { moved_of configuration result ≡ moved (tables_lent tables.entry) configuration number }
{
    if !keeps(tables, configuration) {
        return Err(MoveRefusal::NotMade);
    }
    let mut counters = configuration.counters;
    let location = take_edge(tables, configuration.location, &mut counters, number)?;
    Ok(Configuration { location, counters })
}

// What the single moves give one after the other, in tables and a configuration that keep the layout.
fn walk_kept(configuration: Configuration, tables: Tables, path: &[u32]) -> Walked
    requires { keeps (tables_lent tables) configuration ≡ true }
    ensures { walked_of result ≡ moves_along (tables_lent tables.entry) 0 configuration path.now }
{
    let mut location = configuration.location;
    let mut counters = configuration.counters;
    for (made, edge) in path.iter().enumerate() {
        location = match take_edge(tables, location, &mut counters, *edge as usize) {
            Ok(to) => to,
            Err(refusal) => {
                return Walked {
                    made,
                    configuration: Configuration { location, counters },
                    refused: Some(refusal),
                };
            }
        };
    }
    Walked {
        made: path.len(),
        configuration: Configuration { location, counters },
        refused: None,
    }
}

// What a walk gives.
pub fn make_walk(configuration: Configuration, tables: Tables, path: &[u32]) -> Walked
    ensures { walked_of result ≡ walked (tables_lent tables.entry) configuration path.now }
{
    if MOST_MOVES < path.len() || !keeps(tables, configuration) {
        return Walked {
            made: 0,
            configuration,
            refused: Some(MoveRefusal::NotMade),
        };
    }
    walk_kept(configuration, tables, path)
}
