// How many entries of each kind a log has: labels written again are counted again.
#![tactic(auto)]

ghost use Rattle.std.specs.Prelude.{◌≡◌, ◌≤◌};
ghost use Rattle.counting.specs.Counting.{one_if, Counted};

use events::kind_of;

#[derive(Clone, Copy)]
pub struct Count {
    pub actions: usize,
    pub labels: usize,
    pub operands: usize,
    pub levels: usize,
}

// 1 for an event of that kind, else 0.
fn one_if(word: u64, kind: u64) -> usize
    ensures value { result ≡ one_if kind word }
    ensures upper_bound { result ≤ 1 }
{
    if kind_of(word) == kind { 1 } else { 0 }
}

// The top level is one more than the blocks that open.
pub fn count_log(log: &[u64]) -> Count
    ensures { Counted log.now result }
{
    let mut actions = 0;
    let mut labels = 0;
    let mut operands = 0;
    let mut levels = 1;
    for word in log {
        actions += one_if(*word, 0);
        labels += one_if(*word, 1);
        operands += one_if(*word, 2);
        levels += one_if(*word, 3);
    }
    Count {
        actions,
        labels,
        operands,
        levels,
    }
}
