//! Worked cases of levels that cross crates: trees, tables, findings, warnings, cells, sketches. It holds tests alone.
#![tactic(auto)]

#[cfg(test)]
mod areas_cases;
#[cfg(test)]
mod audit_cases;
#[cfg(test)]
mod callers;
#[cfg(test)]
mod census_cases;
#[cfg(test)]
mod compare;
#[cfg(test)]
mod findings;
#[cfg(test)]
mod growth_end;
#[cfg(test)]
mod levels;
#[cfg(test)]
mod link_cases;
#[cfg(test)]
mod made_trees;
#[cfg(test)]
mod opening;
#[cfg(test)]
mod picture_cases;
#[cfg(test)]
mod refusal_words;
#[cfg(test)]
mod sample;
#[cfg(test)]
mod sketch_cases;
#[cfg(test)]
mod starts_cases;
#[cfg(test)]
mod table_cases;
#[cfg(test)]
mod tallies;
#[cfg(test)]
mod tree_cases;
#[cfg(test)]
mod warning_cases;
