//! What a poster is: the definition of its stations, of the names that it prints, of its plan, and of its elements in order.
//! Nothing runs here.
#![tactic(auto)]
