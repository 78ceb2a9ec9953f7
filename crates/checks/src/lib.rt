// Examples of what the crates below answer, in a crate of their own so that none is proved a second time for its tests.
#![tactic(auto)]

#[cfg(test)]
mod best_entry;
#[cfg(test)]
mod cases;
#[cfg(test)]
mod entry;
#[cfg(test)]
mod judging;
#[cfg(test)]
mod sheets;
#[cfg(test)]
mod words;
#[cfg(test)]
mod yielded;
