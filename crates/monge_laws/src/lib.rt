// Laws of the inequality that a block is checked for, in proofs/, and the definitions that they speak of, in specs/. There is no code here.
#![tactic(auto)]
