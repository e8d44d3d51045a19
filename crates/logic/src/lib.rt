// Laws of tests and numbers that no definition of the product is needed for, in specs/. There is no code here.
#![tactic(auto)]
