// The stations at which a greater-of rule of 503-0-45 changes sides: definitions and laws.
#![tactic(auto)]
