//! Lists of mail addresses, read exactly (RFC 5322, section 3.4): a value gives the addresses that its pieces
//! spell, or the number of the first piece that spells nothing.
#![tactic(auto)]

mod address;
mod found;
mod laws;
mod mailbox;
mod name;
mod parts;
mod pieces;
mod plain;
mod read;
mod scan;
mod token;

pub use address::{Address, AddressError, bare, local_part, same_address};
pub use found::FoundAddress;
pub use laws::{
    comments_are_balanced, each_value_is_read, one_reading, pieces_are_cut_again,
    pieces_are_the_tokens, quoted_strings_end_at_a_quote, tokens_are_the_value,
};
pub use read::{first_address, read_list};
pub use scan::quote_end;
