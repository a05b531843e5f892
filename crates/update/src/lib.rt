// Updates. An update's code: bits 0 to 11 are the old counters added, bits 12 and 13 the constant plus one. Codes are
// written one by one, carried where the heap stays as it is, and read.
#![tactic(auto)]

ghost use Rattle.std.specs.Prelude.{◌≡◌, ℕ, ◌+◌, ◌*◌, ◌^◌, ◌≤◌, ◌<◌, length, get_or, set};
ghost use Rattle.std.specs.Int.Bits.{bit_and};
ghost use Rattle.std.specs.Int.Count.{ones};
ghost use Rattle.model.specs.Base.{most_nodes};
ghost use Rattle.model.specs.Runs.{added, applied};
ghost use Rattle.update.specs.Counted.{added_count};

use model::Node;

// ---- codes written

// 2 to the n: the flag of old node n's counter in an update's code.
pub fn flag(n: Node) -> u16
    requires { n.0 ≤ 11 }
    ensures { (result ≡ 2 ^ n.0) × (result ≤ 4096) }
{
    1u16 << n.0
}

// Writes the code of node n's update.
pub fn set_code(updates: &mut [u16], n: Node, code: u16)
    requires { n.0 < length updates.old }
    ensures { updates.new ≡ set updates.old n.0 code }
{
    let j = n.0 as usize;
    updates[j] = code;
}

// The codes of the updates when the heap stays as it is: each of the 12 counters is its own old counter.
pub fn carry_updates(updates: &mut [u16])
    requires { most_nodes ≤ length updates.old }
    ensures { (j : ℕ) → j < most_nodes → get_or updates.new j 0 ≡ 4096 + 2 ^ j }
{
    for j in 0..12 {
        let n = Node(j);
        set_code(updates, n, 0x1000 + flag(n));
    }
}

// ---- codes read

// How many old counters an update adds.
pub fn counters_added(update: u16) -> u32
    ensures { (result ≡ ones (bit_and update 0x0fff)) × (result ≡ added_count update) }
{
    u16::count_ones(update & 0x0fff)
}

// The sum of the counters of a set, the lowest first.
fn sum_of(set: u16, counters: &[u32]) -> u64
    requires { (set < 4096) × (length counters.now ≡ most_nodes) }
    ensures { (result ≡ added set counters.now) × (result ≤ 4294967295 * most_nodes) }
{
    let mut left = set;
    let mut sum: u64 = 0;
    // counts no index: each turn takes the lowest bit off, so that it costs a turn for each counter of the set
    while 0 < left {
        let k = u16::trailing_zeros(left);
        sum += counters[k as usize] as u64;
        left -= 1u16 << k;
    }
    sum
}

// A new counter: the old counters that the update adds, and its constant.
pub fn apply(update: u16, counters: &[u32]) -> u64
    requires { length counters.now ≡ most_nodes }
    ensures { result ≡ applied counters.now update }
{
    let sum = sum_of(update & 0x0fff, counters) + (update / 4096 % 4) as u64;
    sum.saturating_sub(1)
}
