// Sheets that tell other rules for ties from document 01's. No code.

#![tactic(auto)]
