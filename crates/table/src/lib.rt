// The paper's table of checked examples: `specs/Table` has the rows that are marked P, and
// `proofs/Table` the theorem that the definitions give their texts. There is no code here; the
// program `vectors` runs the rows through the library.
#![tactic(auto)]
