// The wire format, the other way round: an encoder as a definition, and that exactly the encodings of legal tables are accepted.
// Definitions and laws only: specs/.
#![tactic(auto)]
