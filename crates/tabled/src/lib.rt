// Tables ascending by id with their edges in the same order: the image of a layout in the work area, and the held tables. What they
// mean by row number, and how a row is found by its id. Definitions and laws only.
#![tactic(auto)]
