//! Worked cases of one library each. It holds tests alone.
#![tactic(auto)]

#[cfg(test)]
mod compare;
#[cfg(test)]
mod demos;
#[cfg(test)]
mod directories;
#[cfg(test)]
mod end_calls;
#[cfg(test)]
mod ends_for_tests;
#[cfg(test)]
mod geometry;
#[cfg(test)]
mod growths;
#[cfg(test)]
mod in_memory;
#[cfg(test)]
mod later_engines;
#[cfg(test)]
mod later_findings;
#[cfg(test)]
mod later_node_checks;
#[cfg(test)]
mod later_nodes;
#[cfg(test)]
mod later_tree_checks;
#[cfg(test)]
mod later_trees;
#[cfg(test)]
mod lines;
#[cfg(test)]
mod numbers;
#[cfg(test)]
mod readers;
#[cfg(test)]
mod records;
#[cfg(test)]
mod streamed_demos;
#[cfg(test)]
mod text_lines;
#[cfg(test)]
mod tied_ends;
#[cfg(test)]
mod writers;
