// The door for a head: its switch, and tagging and stripping, as functions on numbers and slices of
// numbers, which crate `engine_c` offers to C.
//
// Each function is the call that it stands for, and no more: the caller lends the state as plain
// arrays, laid out as include/stumpclover.h has them, and a call works on them where they lie. No
// function asks anything of its arguments. What has a wrong length is refused, and a refused call
// leaves everything lent as it was. The door for the bench is crate `engine_bench`, so that a head
// is built without it.
#![tactic(auto)]

pub mod frames;
pub mod heads;
