// What holds across calls, and the handover theorem.
//
// Every public call on a machine is data in specs/Calls.antt, with the meaning that its promise cites; what a caller sees of a
// machine is specs/View.antt. specs/Reached.antt and specs/Sound.antt say which machines our calls reach and which are sound, and
// specs/Theorem.antt, one page, what holds when a sound machine is stopped and goes on on another host: demand 3 of the mission.
// proofs/ has what it rests on: storage stays well formed, machines that look alike answer alike, a snapshot's runs restored on a
// blank memory give back what was seen.
//
// Nothing is run here. Three functions do nothing and promise the theorem and what ties it to the code, so that none of these
// statements can go without a promise going.

#![tactic(auto)]

ghost use Rattle.handover.specs.Meant.{Meant};
ghost use Rattle.handover.specs.Promised.{EachPromised};
ghost use Rattle.handover.specs.Theorem.{Theorem};

// The handover theorem: specs/Theorem.antt.
pub fn handover()
    ensures { Theorem }
{}

// The theorem speaks of something: every stopped machine can be handed over (specs/Meant.antt).
pub fn speaks_of_something()
    ensures { Meant }
{}

// Each call of the theorem is what its promise in src/ says (specs/Promised.antt).
pub fn keeps_each_promise()
    ensures { EachPromised }
{}
