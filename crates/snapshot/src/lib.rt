// Snapshot and resume: snapshot2.rs's make_snapshot and resume.
//
// Document 01, "Snapshot and resume". A snapshot of a machine is written to two lent outputs: a record file (crate recordfile)
// with the machine's numbers and its runs of pages, and a page file with the bytes of the dirty pages. Pages that hold exactly
// bytes of a source go out as source runs, by their records (crate tracking), and are loaded again at resume.
//
//   make     make_snapshot
//   runs     the runs of dirty pages, and of tracked clean pages, found one by one
//   resume   resume
//
// Both answer on every input and look at all lengths first (refusal 9). What each answers and leaves is one program of specs/
// (MakeSnapshot.antt, Resume.antt), run on the lent lists; the steps of resume are the programs that the calls of memory and
// tracking promise.
#![tactic(auto)]

pub mod make;
pub mod resume;
mod runs;
