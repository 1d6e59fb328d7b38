//! What an application is asked, and who decides whether payloads may be certified.
pub use crate::certifier::Certifier;
pub use crate::certify_fn::CertifyFn;
pub use crate::control_fn::ControlFn;
pub use crate::mailbox::Mailbox;
pub use crate::message::Message;
pub use simplex_types::genesis;
