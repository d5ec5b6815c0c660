//! The client's end of NFS version 4.1 over TCP (RFC 8881, RFC 5531): what is asked becomes one
//! record, and a reply's record the results of what was asked.
#![tactic(auto)]

mod call;
mod client;
mod fault;
mod head;
mod joined;
mod known;
mod receive;
mod reply;
mod results;
mod sent;
mod stream;

pub use client::Client;
pub use fault::ClientFault;
pub use joined::{
    every_exchange, every_request_is_answered, every_resend_is_replayed, exchange_example,
};
