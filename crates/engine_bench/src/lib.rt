// The door for planners: descriptions and the bench, as C functions on slices of numbers, in the
// manner of crate `engine`. A network is lent as three arrays and a bench as four more, which crate
// `layout` draws; an event goes by value in between, since a bench is no head in the field.
#![tactic(auto)]

mod benches;
mod networks;
