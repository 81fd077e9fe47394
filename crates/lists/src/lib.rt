// Lists of numbers: definitions and laws that any crate may use and nobody must believe twice. No code: what code does to lists std has.

#![tactic(auto)]
