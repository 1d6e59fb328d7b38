//! The engine of a member on threads, which meet, or go in step, or of which one leads.
mod feeds;
mod gates;
mod member;
mod runs;
mod told;
