//! Fields of bytes: the parts of frames and records, read one after another.
//!
//! A field either stands at the front of the bytes or is missing. The codec decides how to refuse a
//! missing field, so reading returns an `Option`. Reading takes no memory.
#![tactic(auto)]

mod field_reader;

pub use field_reader::FieldReader;
