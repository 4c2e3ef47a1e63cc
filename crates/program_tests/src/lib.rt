//! Worked cases of whole commands over small files. It holds tests alone.
#![tactic(auto)]

#[cfg(test)]
mod atlas_growths;
#[cfg(test)]
mod commands;
#[cfg(test)]
mod compare;
#[cfg(test)]
mod demo_cases;
#[cfg(test)]
mod demo_ends;
#[cfg(test)]
mod directory_cases;
#[cfg(test)]
mod drawing_growths;
#[cfg(test)]
mod ends;
#[cfg(test)]
mod later_listings;
#[cfg(test)]
mod lens_check;
#[cfg(test)]
mod lens_growths;
#[cfg(test)]
mod memory;
#[cfg(test)]
mod opening;
#[cfg(test)]
mod sample;
#[cfg(test)]
mod survey_texts;
#[cfg(test)]
mod texts;
