//! What no clause says: worked examples, call by call, and the plain graph beside the transactions.
mod plain;
mod player;
mod worked;
