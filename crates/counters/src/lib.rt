// Whether twelve counters fit the nodes of a shape and the cells of a heap.
#![tactic(auto)]

ghost use Rattle.std.specs.Prelude.{◌≡◌, ◌≤◌, leb, length};
ghost use Rattle.model.specs.Base.{all, sum, most_nodes};
ghost use Rattle.model.specs.Image.{counters_fit, counters_of};

// Whether each counter is at least 1.
fn all_positive(counters: &[u32]) -> bool
    ensures { result ≡ all (leb 1) counters.now }
{
    counters.iter().all(|c| 1 <= *c)
}

// The number of cells that at most twelve counters ask for: it fits, since each has 32 bits.
fn total(counters: &[u32]) -> u64
    requires { length counters.now ≤ most_nodes }
    ensures { result ≡ sum (λ v. v) counters.now }
{
    counters.iter().map(|c| *c as u64).sum()
}

// Whether twelve counters are those of k nodes: each node has a cell, counters past them ask for none.
pub fn counters_of(k: usize, counters: &[u32]) -> bool
    requires { (k ≤ most_nodes) × (length counters.now ≡ most_nodes) }
    ensures { result ≡ counters_of k counters.now }
{
    all_positive(&counters[..k]) & (total(&counters[k..]) == 0)
}

// Whether the counters are twelve, are those of k nodes, and fit n cells.
pub fn counters_fit(k: usize, counters: &[u32], n: usize) -> bool
    requires { k ≤ most_nodes }
    ensures { result ≡ counters_fit k counters.now n }
{
    counters.len() == model::MOST_NODES && counters_of(k, counters) && (total(counters) <= n as u64)
}
