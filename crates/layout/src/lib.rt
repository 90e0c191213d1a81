// Internal: what stands around the lines of a block, for calls that were tested. `zip` has rows of a block zipped, two by two, as
// lines read them; `live` has how much of a block is not zero; `small`, which blocks are worked whole and in small rooms. Read
// specs/Zip and specs/Live, then specs/Part with proofs/Alive: a block is worked by a part outside of which all is 0.
#![tactic(auto)]

pub mod live;
pub mod small;
pub mod zip;
