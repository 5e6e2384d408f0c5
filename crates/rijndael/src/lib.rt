// AES-128 and its masked program are definitions and theorems: specs/ and proofs/. There is no code here.

#![tactic(auto)]
