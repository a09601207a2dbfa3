// Curves over the field of `field`: definitions and laws alone. A secret is split by giving out
// values of a curve that begins with it, and recovered as the value at 0 of the one curve through
// as many of them as the threshold says.
#![tactic(auto)]
