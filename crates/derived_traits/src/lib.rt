//! What callers know of the derived traits and of the constants, at each type of the libraries. A derived trait has no
//! contract of its own. So [`callers`] says what a call returns at any type, in words of the trait, and the other
//! modules say what these words mean at each type. All of it is proved and never run.
#![tactic(auto)]

pub mod arp;
pub mod base;
pub mod callers;
pub mod content;
pub mod filter;
pub mod packet;
pub mod pcap;
pub mod peel;
pub mod sll;
pub mod sll2;
pub mod switch;
pub mod tags;
pub mod text;
