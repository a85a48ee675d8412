// The flood theorem: a frame that is flooded over a mesh of switches reaches each switch and host that is joined, a host
// exactly once, and what the switches record of its sender leads back to it. specs/ states it, proofs/ proves it; there is no code.

#![tactic(auto)]
