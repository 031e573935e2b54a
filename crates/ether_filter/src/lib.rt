//! Filters of packets: reads expressions in words of pcap-filter(7), and tests whether packets match them. No call
//! allocates memory.
#![tactic(auto)]

mod awaited;
mod behind;
mod byte_text;
mod can;
mod certain;
mod cut_walk;
mod deciding;
mod decision;
mod field_hit;
mod field_match;
mod field_test;
mod fields;
mod filter;
mod filter_error;
pub mod filter_program;
mod instruction;
mod jumps;
mod later;
pub mod laws;
mod least;
mod matching;
mod node;
mod numeral;
mod outcome;
mod own_fields;
mod packet;
mod possible;
mod primitive;
mod prospect;
mod reading;
mod seen;
mod subject;
mod tag_marks;
mod text_words;
mod time_text;
mod token;
mod without_fcs;

pub use decision::Decision;
pub use field_test::{FieldTest, Relation};
pub use filter::Filter;
pub use filter_error::{FilterError, FilterErrorKind};
pub use instruction::Instruction;
pub use node::{Node, Operator};
pub use numeral::number_of;
pub use packet::{Packet, PacketTime};
pub use primitive::Primitive;
