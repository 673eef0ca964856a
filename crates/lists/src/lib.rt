// Lists of numbers as rules speak of them: membership, order, ascending sets. Definitions and laws only; no code.
#![tactic(auto)]
