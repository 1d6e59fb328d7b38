//! Runs by several workers: that two of them are inside at once, and that all give what one gives.
mod gates;
mod lists;
mod tests;
