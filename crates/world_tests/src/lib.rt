//! Tests of worlds, compared with a plain model, and of the public calls of `headline`. Tests of
//! scripts: lines and answers alone, reads and writes that fail, and one script that is too long to
//! be kept (the others are in the folder `tests/scripts` at the top). Tests of stops: after each
//! step of a script, and at each of its device calls; what is then opened is compared with a plain
//! reader of images, and the answers with the plain model. This crate stands above those that it
//! tests, so that each of these is proved once.
#![tactic(auto)]

#[cfg(test)]
mod adoption_tests;
#[cfg(test)]
mod answers;
#[cfg(test)]
mod crash_tests;
#[cfg(test)]
mod end_tests;
#[cfg(test)]
mod failing_tests;
#[cfg(test)]
mod full_journal_tests;
#[cfg(test)]
mod images;
#[cfg(test)]
mod lines_tests;
#[cfg(test)]
mod links;
#[cfg(test)]
mod many_tests;
#[cfg(test)]
mod migration_tests;
#[cfg(test)]
mod opening_tests;
#[cfg(test)]
mod plays;
#[cfg(test)]
mod restoring_tests;
#[cfg(test)]
mod row_tests;
#[cfg(test)]
mod rows;
#[cfg(test)]
mod stage_tests;
#[cfg(test)]
mod stopping_tests;
#[cfg(test)]
mod windows;
#[cfg(test)]
mod writes_tests;
