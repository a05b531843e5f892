// Where the cells went: two facts about runs of the routine and of the automaton. Definitions and laws alone; there is
// no code.
#![tactic(auto)]
