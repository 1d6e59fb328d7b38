//! The shared mailbox: a small history call by call, and threads whose history one thread makes again.
mod calls;
mod gate;
mod replay;
mod sharing;
mod threads;
