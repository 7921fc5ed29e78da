// Laws of signed integers, in specs/: magnitudes, and values read back from their bits. No code.

#![tactic(auto)]
