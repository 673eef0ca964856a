// Demand 3 of the public calls: on the held tables that an accepted layout leaves, no reading order that the ordering call allows comes to a
// dead end. A statement and its proof only.
#![tactic(auto)]
