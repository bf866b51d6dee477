//! Upstream's own tests of what is restated here, by upstream's names: each with upstream's input
//! and the result that upstream expects, but for what is told beside it.
#![tactic(auto)]

#[cfg(test)]
mod upstream;
