//! The tests, by what they test.

mod answers;
mod arguments;
mod controls;
mod faults;
mod files;
mod halting;
mod picture;
mod rules;
mod runs;
mod same;
mod sets;
mod tables;
mod texts;
mod words;
mod writers;
