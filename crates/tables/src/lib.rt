// The weights as data. Those of DST-VII are in weights, whole and row by row; zipped has those of every kind in the order in which
// lines read them, which `stage_weights` puts into rooms of one length. A `const` array is built anew at each use, so those of up to
// 16 points are handed out by value and lent from there, and those of 32 are written into a lent room. Read specs/Table, then the
// functions of this file, whose proofs have the checker test the fold rule over the whole table (proofs/Stored); specs/Term with
// zipped; of proofs/, Unique. crates/tables/make writes weights and zipped.
#![tactic(auto)]

mod weights;
pub mod zipped;

ghost use Rattle.tables.specs.Table.{Table};

pub fn weights_4() -> [i16; 16]
    ensures { Table 4 result }
{
    weights::WEIGHTS_4
}

pub fn weights_8() -> [i16; 64]
    ensures { Table 8 result }
{
    weights::WEIGHTS_8
}

pub fn weights_16() -> [i16; 256]
    ensures { Table 16 result }
{
    weights::WEIGHTS_16
}

pub fn weights_32() -> [i16; 1024]
    ensures { Table 32 result }
{
    weights::WEIGHTS_32
}
