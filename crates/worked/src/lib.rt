// The frames and values that 01 and 02 work out, as theorems by computation: what is read, where it stands, what is written. No code.
#![tactic(auto)]
