//! The coordinator of a driver of real databases: requests in, replies out.
//!
//! [`Server`] does what each request asks for ([`Server::perform`]), over a session of `xa_session`.
//! [`Server::serve`] reads requests, a line each, and writes a line for each. The functions of [`laws`] do nothing: their
//! contracts are theorems.
//!
//! "XA" in these pages is X/Open CAE Specification C193, "Distributed Transaction Processing: The XA Specification"
//! (1991).
#![tactic(auto)]

pub mod laws;
mod lines;
mod server;
mod serving;
mod strange;

pub use server::Server;
pub use serving::ServeFault;
