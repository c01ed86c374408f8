//! Numbers of ways.

/// What is written in place of a number of ways that is 2^128 or more, and so is not counted: 2^128 with a plus.
pub const UNCOUNTED: &[u8] = b"340282366920938463463374607431768211456+";
