// Whether the updates of an edge keep the layout: each by itself under the edge's guards, and that no old counter is
// added in two of them.
#![tactic(auto)]

ghost use Rattle.std.specs.Prelude.{◌≡◌, true, ◌&&◌, ◌%◌, ◌≤◌, eqb, length};
ghost use Rattle.std.specs.Int.Bits.{bit_and, bit_or};
ghost use Rattle.model.specs.Base.{all, most_nodes, record_size};
ghost use Rattle.model.specs.Layout.{added_once, constant_keeps, could_fall, counters_there};
ghost use Rattle.model.specs.Runs.{updates_of};
ghost use Rattle.model.specs.Structs.{code_in};
ghost use Rattle.update_layout.specs.Kept.{GuardsKept, asks, codes_in, exclude, guard_ok, update_keeps};

use model::{Guard, Guards};

// Whether a guard of an edge's record keeps the layout, where the source has so many nodes.
pub fn guard_keeps(guard: Guard, nodes: u8) -> bool
    ensures { result ≡ guard_ok nodes (code_in guard) }
{
    if guard.test == 0 {
        return guard.node.0 == 0;
    }
    (guard.test <= 2) & (guard.node.0 < nodes)
}

// Whether a guard asks for 2 or more of a counter that the update adds.
fn asks(guard: Guard, update: u16) -> bool
    requires { guard.node.0 ≤ 11 }
    ensures { result ≡ asks (code_in guard) update }
{
    (guard.test == 2) & ((update >> guard.node.0) % 2 == 1)
}

// Whether no counters pass both guards.
fn exclude(guards: Guards) -> bool
    ensures { result ≡ exclude (code_in guards.first) (code_in guards.second) }
{
    let a = guards.first;
    let b = guards.second;
    (((a.test == 1) & (b.test == 2)) | ((a.test == 2) & (b.test == 1))) & (a.node == b.node)
}

// Whether an update could give less than 1: the least counters that pass the guards are 1 and 2.
fn falls(update: u16, nodes: u8, guards: Guards) -> bool
    requires { (nodes ≤ most_nodes) × (constant_keeps update ≡ true) × (counters_there nodes update ≡ true)
        × GuardsKept nodes guards }
    ensures { result ≡ could_fall nodes (codes_in guards) update }
{
    let a = guards.first;
    let b = guards.second;
    if exclude(guards) | asks(a, update) | asks(b, update) {
        return false;
    }
    update::counters_added(update) + ((update / 4096) as u32) < 2
}

// Whether one update keeps the layout. Most add counters and no constant, and give no less than these.
fn update_keeps(update: u16, nodes: u8, guards: Guards) -> bool
    requires { (nodes ≤ most_nodes) × GuardsKept nodes guards }
    ensures { result ≡ update_keeps nodes (codes_in guards) update }
{
    if (3 <= update / 4096) | ((update & 0x0fff) >> nodes != 0) {
        return false;
    }
    if (0x1000 < update) & (update < 0x2000) {
        return true;
    }
    !falls(update, nodes, guards)
}

// Whether the updates of an edge's record keep the layout, one for each of the target's nodes.
pub fn updates_keep(rec: &[u8], nodes: u8, new: usize, guards: Guards) -> bool
    requires { (length rec.now ≡ record_size) × (nodes ≤ most_nodes) × (new ≤ most_nodes)
        × GuardsKept nodes guards }
    ensures { result ≡ all (update_keeps nodes (codes_in guards)) (updates_of new rec.now)
        && added_once (updates_of new rec.now) }
{
    // The old counters that earlier updates add.
    let mut seen: u16 = 0;
    for j in 0..new {
        let update = word::two(rec, 8 + 2 * j);
        let old = update & 0x0fff;
        if !(update_keeps(update, nodes, guards) & (seen & old == 0)) {
            return false;
        }
        seen |= old;
    }
    true
}
