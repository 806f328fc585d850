// Practice campaigns from a seed number: definitions and laws; their code is in `practice_draw`.
#![tactic(auto)]
