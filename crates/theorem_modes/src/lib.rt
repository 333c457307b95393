// The two modes of meeting (SCOPE 54 to 57): what plain mode comes to, and pairs that the modes answer differently. No code.
#![tactic(auto)]
