//! The definitions of trees, rights and seats, which storage needs as well as operations, and the
//! plain data types that they are about.
//!
//! `specs/` has one file for each subject, with the section of the public standard that it comes
//! from.
#![tactic(auto)]

pub mod acl;
pub mod acl_laws;
pub mod limits;
pub mod maps;
pub mod node;
pub mod seat_edits;
pub mod seats;
pub mod stamps;
pub mod status;
pub mod tree;
