//! What is kept of a run's entries, so that later events can name them: packets, requests, the finalizations that
//! honest members reported, and the votes that they sent. The members may be of any kind.
#![tactic(auto)]

mod entries;
mod forgery;
mod kinds;
mod packets;
mod reading;
mod records;
mod reported;
mod requests;
mod routing;
mod seats;
mod sent_votes;
mod subjects;

pub use forgery::Forgery;
pub use kinds::is_honest;
pub use packets::packets_of;
pub use records::Records;
pub use reported::Reported;
pub use requests::Requests;
pub use routing::packet_for_send;
pub use seats::seat_of;
pub use sent_votes::SentVotes;
