// The calls for programs in C and Rust: numbers, slices as pointer and length, and answers into buffers
// that the caller lends. bindings/trufolmesca.h says what each list holds, and what the parameters of each call are.
#![tactic(auto)]

mod calls; // calls.rt: the refinement calls
mod card_calls; // card_calls.rt: the calls over cards
mod leaf_calls; // leaf_calls.rt: the leaf calls
