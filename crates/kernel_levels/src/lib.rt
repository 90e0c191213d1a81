// Internal: what every kernel of DCT-II blocks is proved by; there is no code here. Read specs/Kernels for what a kernel takes and
// leaves, then proofs/Levels, the one law over points and live inputs: a line of 2h points is a line of h points over the even
// inputs, a product of the odd ones by pairs, and a butterfly. proofs/Tiles has how `down` goes from a strip of columns to turned
// tiles, proofs/Across how `along` goes from turned tiles to rows of residuals, proofs/Stored the weights. The crates behind this
// one have the kernels by points. `make` writes their code and proofs, and proofs/Stored, from points and live inputs; nothing
// rests on it, as the prover checks what it wrote.
#![tactic(auto)]
