use crate::{Order, RowList};
use mail_text::Items;

/// The messages of a folder as a session shows them. Messages are numbered from 1. Calls that take such a value ask
/// for a valid one: at most 1,000,000 rows, each number once in the order, a depth for each place of the order, and
/// the current message among the rows.
#[derive(Drop)]
pub struct Shown {
    /// What is known of each message, by number.
    pub rows: RowList,
    /// The numbers in the order of the view.
    pub order: Order,
    /// How deep the message at each place of the order stands under others.
    pub depth: Items<u32>,
    /// The number of the current message, or 0.
    pub current: u32,
}
