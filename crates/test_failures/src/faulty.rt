//! What each kind of faulty member answers to random packets, compared with what is said of it a second time.
mod members;
mod packets;
mod rendering;
