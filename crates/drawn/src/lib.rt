// What holds of the sheets that are drawn from accepted documents, and of the answers for their places: laws over the definitions of parts.

#![tactic(auto)]
