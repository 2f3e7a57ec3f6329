// SWF19's action records. Definitions; the one choice that they leave is an enum.
#![tactic(auto)]

// The order of GetURL2's bits: that of players and compilers, or that which SWF19 prints (docs/DIFFERENCES.md).
#[derive(Clone, Copy)]
pub enum Style {
    AsPlayed,
    AsPrinted,
}
