// The traffic that document 001 prints: specs/ has its frames, proofs/ what they show of the frame's CRC16 and flags, and the receiver at 141.

#![tactic(auto)]
