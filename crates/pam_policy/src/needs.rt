//! The rules that hold of a stack: what is needed on every way in, what is obeyed, and what is always asked.

mod choices;
mod event;
mod events;
mod fewest;
mod guards;
pub mod laws;
mod sentences;
mod suggesting;
mod suggestion;
#[cfg(test)]
mod tests;

pub use event::StackEvent;
pub use suggesting::suggestions;
pub use suggestion::Suggestion;
