// Lists of transactions, as bytes and decoded: numbers 3 and 4, and what is read stored in lent places. To pack a decoded list is `packing`'s; the
// table was admitted before.
#![tactic(auto)]

pub mod check;
pub mod decode;
pub mod record;
