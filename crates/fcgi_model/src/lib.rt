//! What a good trace of a FastCGI front is: the rules of a step, and small traces by computation. Definitions, no code.
#![tactic(auto)]
