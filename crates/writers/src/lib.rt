// The library for a bench: replies as a board sends them, for C. A `&[u8]` is a pointer and then a length.
#![tactic(auto)]

mod lists;
mod replies;
