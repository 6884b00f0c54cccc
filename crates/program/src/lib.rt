// Calls as programs: what a call means, apart from the storage that it is made on.
//
// A program asks operations in turn, is answered, and ends with a result (specs/Program.antt). It knows no
// storage: `run does` runs it on lent lists, which is what a promise cites, and `run does_v` on what a caller
// sees of them, which is what the theorems speak of. That both agree is shown for each operation once, and
// then holds for every program (proofs/Like.antt). There is no code here.

#![tactic(auto)]
