// What the table of aliases stands for (02, P6), said without the table; and each refusal by its row.
#![tactic(auto)]
