//! Runs of whole networks that stop at each call of a member: what stands then is looked over by a slow checker.
mod alone;
mod checker;
mod four;
mod kept;
mod standing;
mod world;
