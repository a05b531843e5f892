// One move along an edge, in tables and a configuration that keep the layout.
#![tactic(auto)]

ghost use Rattle.std.specs.Prelude.{◌≡◌, true, false, ◌&&◌, map, ◌+◌, ◌*◌, ◌^◌, ◌<◌, ◌≤◌, MatchResult, eqb, get_or, length, replicate};
ghost use Rattle.model.specs.Base.{most_nodes, record_size};
ghost use Rattle.model.specs.Notions.{In};
ghost use Rattle.model.specs.Records.{GuardCode, byte, filled, record_at, word};
ghost use Rattle.model.specs.Runs.{applied, guard_holds, guards_hold, guards_of, updates_of};
ghost use Rattle.model.specs.Structs.{tables_lent};
ghost use Rattle.model.specs.Walking.{in_counters, keeps, moved};
ghost use Rattle.model.specs.declared.codes.MoveRefusal.TheVariants.{CounterTooLarge};
ghost use Rattle.moving.specs.Advanced.{Carries, Ready, Replaced, advanced, moved_by, standing};

use edge_layout::{guards_of, nodes_at};
use model::{Guard, MoveRefusal, Node, Tables, record_at};

// Whether a guard holds of its node's counter.
fn holds(guard: Guard, counters: &[u32; 12]) -> bool
    requires { guard.node.0 < most_nodes }
    ensures { result ≡ guard_holds guard.test (get_or counters.now guard.node.0 0) }
{
    let n = guard.node.0 as usize;
    let c = counters[n];
    match guard.test {
        0 => true,
        1 => c == 1,
        2 => 2 <= c,
        _ => false,
    }
}

// Whether an edge leaves a location, and both its guards hold.
fn leads(rec: &[u8], location: u32, counters: &[u32; 12]) -> bool
    requires { (length rec.now ≡ record_size) × ((g : GuardCode) → In g (guards_of rec.now) → g.node < most_nodes) }
    ensures { result ≡ eqb (word rec.now 2) location
        && guards_hold counters.now (guards_of rec.now) }
{
    if word::two(rec, 2) as u32 != location {
        return false;
    }
    let guards = guards_of(rec);
    holds(guards.first, counters) & holds(guards.second, counters)
}

// The new counter that an update gives, where it has 32 bits.
fn new_counter(update: u16, counters: &[u32; 12]) -> Result<u32, MoveRefusal>
    ensures { MatchResult result (λ v. (v ≡ applied counters.now update) × (v < 2 ^ 32))
        (λ r. (r ≡ CounterTooLarge) × (2 ^ 32 ≤ applied counters.now update)) }
{
    u32::try_from(update::apply(update, counters)).map_err(|_| MoveRefusal::CounterTooLarge)
}

// Puts the new counters of the target's nodes in place of zeros, where each has 32 bits. They are lent, since counters
// that were written one by one and are handed on at once wait to be read.
fn new_counters(
    rec: &[u8],
    nodes: usize,
    counters: &[u32; 12],
    next: &mut [u32; 12],
) -> Result<(), MoveRefusal>
    requires { (length rec.now ≡ record_size) × (nodes ≤ most_nodes) × (next.old ≡ replicate most_nodes 0) }
    ensures { let vs = map (applied counters.now) (updates_of nodes rec.now) in
        MatchResult result (λ _. (in_counters vs ≡ true) × (next.new ≡ filled most_nodes vs))
        (λ r. (r ≡ CounterTooLarge) × (in_counters vs ≡ false)) }
{
    for j in 0..nodes {
        next[j] = new_counter(word::two(rec, 8 + 2 * j), counters)?;
    }
    Ok(())
}

// Whether an edge between locations of so many nodes carries each counter as it is.
fn carries(rec: &[u8], old: u8, new: u8) -> bool
    requires { (length rec.now ≡ record_size) × (new ≤ most_nodes) }
    ensures { result ≡ true → (old ≡ new) × Carries rec.now new }
{
    old == new
        && (0..new).all(|j| word::two(rec, 8 + 2 * j as usize) == 0x1000 + update::flag(Node(j)))
}

// The new counters in place of the old ones, where each has 32 bits.
pub fn replace_counters(
    rec: &[u8],
    nodes: usize,
    counters: &mut [u32; 12],
) -> Result<(), MoveRefusal>
    requires { (length rec.now ≡ record_size) × (nodes ≤ most_nodes) }
    ensures { Replaced (map (applied counters.old) (updates_of nodes rec.now))
        result counters.old counters.new }
{
    let mut next = [0u32; 12];
    new_counters(rec, nodes, counters, &mut next)?;
    *counters = next;
    Ok(())
}

// Where the move along an edge that leads on leads. Most edges carry every counter, and leave them where they are.
fn advance(
    rec: &[u8],
    locations: &[u8],
    location: u32,
    counters: &mut [u32; 12],
) -> Result<u32, MoveRefusal>
    requires { Ready rec.now locations.now location counters.old }
    ensures { moved_by location result counters.new ≡ advanced rec.now
        (byte (record_at locations.now (word rec.now 4)) 3)
        (standing location counters.old) }
{
    let to = word::two(rec, 4);
    let nodes = nodes_at(locations, to as usize);
    if carries(rec, nodes_at(locations, location as usize), nodes) {
        return Ok(to as u32);
    }
    replace_counters(rec, nodes as usize, counters)?;
    Ok(to as u32)
}

// Where a move leads, in tables and a configuration that keep the layout, whose counters are lent. A refused move
// leaves them. It is inlined where it is called, since what it is given and answers would go through memory for each
// edge of a walk.
#[inline(always)]
pub fn take_edge(
    tables: Tables,
    location: u32,
    counters: &mut [u32; 12],
    number: usize,
) -> Result<u32, MoveRefusal>
    requires { keeps (tables_lent tables) (standing location counters.old) ≡ true }
    ensures { moved_by location result counters.new
        ≡ moved (tables_lent tables.entry) (standing location counters.old) number }
{
    if tables.counts.edges <= number {
        return Err(MoveRefusal::NotMade);
    }
    let rec = record_at(tables.edges, number);
    if !leads(rec, location, counters) {
        return Err(MoveRefusal::NotMade);
    }
    advance(rec, tables.locations, location, counters)
}
