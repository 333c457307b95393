// Indexes counted round a ring of n, and the blocks in which a ring is walked. By comparison: a division costs more than the rest of a step.
#![tactic(auto)]

ghost use Rattle.std.specs.Prelude.{◌≡◌, ◌+◌, ◌-◌, ◌%◌, ◌≤◌, ◌<◌};
ghost use Rattle.ring_index.specs.Blocks.{block_end};

// Index n of n is the first.
#[tactic(auto, using(crate::proofs::Rounds::under, crate::proofs::Rounds::over))]
pub fn wrapped(k: usize, n: usize) -> usize
    requires { (0 < n) × (k ≤ n) }
    ensures { (result ≡ k % n) × (result < n) }
{
    if k == n { 0 } else { k }
}

// The index after i.
pub fn next(i: usize, n: usize) -> usize
    requires { (i < n) × (n ≤ 512) }
    ensures { (result ≡ (i + 1) % n) × (result < n) }
{
    wrapped(i + 1, n)
}

// The index before i.
#[tactic(auto, using(crate::proofs::Rounds::under, crate::proofs::Rounds::over))]
pub fn previous(i: usize, n: usize) -> usize
    requires { (i < n) × (n ≤ 512) }
    ensures { (result ≡ (i + n - 1) % n) × (result < n) }
{
    if i == 0 { n - 1 } else { i - 1 }
}

// Where the block ends that starts at `from`.
#[tactic(auto, unfolding(crate::specs::Blocks::block_end))]
pub fn block_end(from: usize, n: usize) -> usize
    requires { (from < n) × (n ≤ 512) }
    ensures { (result ≡ block_end from n) × (from < result) × (result ≤ from + 16) × (result ≤ n) }
{
    if n - from < 16 { n } else { from + 16 }
}
