//! Runs of images whose code sleeps and wakes at heads: where the code carries a flow of operations from point to point, the image agrees
//! with the flow's program and endures, whatever the supply. Lemmas alone; there is no code.
#![tactic(auto)]
