// The laws of request and reply bodies: their round trips, their orders of refusals, their edges. No code.

#![tactic(auto)]
