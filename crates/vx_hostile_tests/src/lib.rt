//! Tests of what files and peers may hand in: parts that contradict each other, numbers past every
//! buffer, iterators that lie about their length. Each with its exact answer.
#![tactic(auto)]

#[cfg(test)]
mod columns;
#[cfg(test)]
mod constants;
#[cfg(test)]
mod fixed_lists;
#[cfg(test)]
mod iterators;
#[cfg(test)]
mod list_views;
#[cfg(test)]
mod records;
#[cfg(test)]
mod views;
