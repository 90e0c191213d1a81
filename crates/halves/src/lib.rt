// The law of halves for kind 0: a line of n points is a line of half of them over the even inputs or the sums from both ends, and a
// product over the odd ones. There is no code here. Read specs/Halves; of proofs/, ByHalves, which has the split once over the size,
// and Halved, that every size's weights are such. The lines that go by it stand in `dct2_line`.
#![tactic(auto)]
