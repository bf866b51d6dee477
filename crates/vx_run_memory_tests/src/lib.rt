//! Runs and scripts, each of whose requests for memory `tools/sweep_tests` refuses in turn.
#![tactic(auto)]

#[cfg(test)]
mod steps;
